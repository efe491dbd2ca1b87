//! What takes the entries that a pass over a chain hands on.

ghost use Rattle.std.specs.Prelude.{◌≡◌, length, OnOk, OnErr};
ghost use Rattle.std.specs.List.{zip};
ghost use Rattle.bw_chain.specs.Ascends.{IsAscending};
ghost use Rattle.bw_chain.specs.Passing.Edited.{IsFalling, edited};

use bw_keys::Key;

/// Takes the entries of a chain in the order of their keys, those of one base page at a time.
pub(crate) trait Sink<X> {
    ghost use Rattle.std.specs.Prelude.{ℕ, List, ◌++◌};

    /// Why it takes no more of them.
    type Stop;

    /// From the first state it comes to the second by taking the entries.
    ghost takes: { Self → List (ℕ × X) → Self → Type 0 };

    /// It takes neither these entries nor any that begin with them.
    ghost refuses: { Self → List (ℕ × X) → Type 0 };

    /// Takes the entries of these keys and values with the edits, which come with the greatest key
    /// first.
    fn take_edited(
        &mut self,
        keys: &[Key],
        values: &[X],
        edits: &[(Key, Option<X>)],
    ) -> Result<(), Self::Stop>
        requires even { length values.now ≡ length keys.now }
        requires ascending { IsAscending (zip keys.now values.now) }
        requires falling { IsFalling edits.now }
        ensures taken { OnOk result
            (takes self.old (edited edits.now (zip keys.now values.now)) self.new) }
        ensures refused { OnErr result
            (refuses self.old (edited edits.now (zip keys.now values.now))) };

    ghost takes_joined: { (s t u : Self) (es fs : List (ℕ × X)) →
        takes s es t → takes t fs u → takes s (es ++ fs) u };

    ghost refuses_more: { (s : Self) (es fs : List (ℕ × X)) →
        refuses s es → refuses s (es ++ fs) };

    ghost refuses_later: { (s t : Self) (es fs : List (ℕ × X)) →
        takes s es t → refuses t fs → refuses s (es ++ fs) };
}
