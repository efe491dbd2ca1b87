//! What holds a worker's table.

ghost use Rattle.std.specs.Prelude.{◌≡◌};

/// What is to be done with a value. A closure would say as much, but takes no hint to be built in.
pub trait Does<T> {
    /// What comes of it.
    type Answer;

    // what it leaves of the value, and answers
    ghost does: { Self → T → Self.Answer → T → Type 0 };

    /// Does it.
    fn run(self, value: &mut T) -> Self::Answer
        ensures { does self value.old result value.new };
}

/// A value of its own, or a reference to one.
pub trait Holds<T>: Drop {
    ghost use Rattle.std.specs.Prelude.{◌≡◌};

    ghost value: { Self → T };

    // the value is in the same place
    ghost same: { Self → Self → Type 0 };

    /// Returns the value.
    fn get(&self) -> &T
        ensures { result.now ≡ value self.now };

    /// Does something with the value.
    fn with<D: Does<T>>(&mut self, what: D) -> D::Answer
        ensures done { D.does what (value self.old) result (value self.new) }
        ensures same { same self.old self.new };

    /// Whether the value is its own.
    fn is_owner(&self) -> bool;

    // laws
    ghost stays: { (h : Self) → same h h };

    ghost joins: { (a b c : Self) → same a b → same b c → same a c };
}

/// A value of its own.
#[derive(Drop)]
pub struct Own<T: Drop> {
    pub value: T,
}

impl<T: Drop> Holds<T> for Own<T> {
    ghost value = { λ h. h.value };

    ghost same = { λ a b. Unit {0} };

    ghost stays = { λ h. tt };

    ghost joins = { λ a b c p q. tt };

    #[inline(always)]
    fn get(&self) -> &T {
        &self.value
    }

    #[inline(always)]
    fn with<D: Does<T>>(&mut self, what: D) -> D::Answer {
        what.run(&mut self.value)
    }

    #[inline(always)]
    fn is_owner(&self) -> bool {
        true
    }
}

impl<T> Holds<T> for &mut T {
    ghost use Rattle.std.specs.Prelude.{◌≡◌, refl};
    ghost use Rattle.std.proofs.Common.{◌∙◌};

    ghost value = { λ t. t.now };

    ghost same = { λ a b. b.ghost_name ≡ a.ghost_name };

    ghost stays = { λ h. refl };

    ghost joins = { λ a b c p q. q ∙ p };

    #[inline(always)]
    fn get(&self) -> &T {
        self
    }

    #[inline(always)]
    fn with<D: Does<T>>(&mut self, what: D) -> D::Answer {
        what.run(self)
    }

    #[inline(always)]
    fn is_owner(&self) -> bool {
        false
    }
}
