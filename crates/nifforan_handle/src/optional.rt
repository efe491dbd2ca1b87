ghost use Rattle.std.specs.Prelude.{◌≡◌, Some};
ghost use Rattle.nifforan_handle.specs.Answers.{value_of};

/// A value, or none.
#[repr(C)]
#[derive(Clone, Copy)]
pub struct Optional {
    /// The value, if there is one. Otherwise it is ignored.
    pub value: u64,
    /// Whether there is one.
    pub is_some: bool,
}

impl Optional {
    /// No value.
    pub const NONE: Optional = Optional {
        value: 0,
        is_some: false,
    };

    /// Returns the value as an optional one.
    pub fn some(value: u64) -> Optional
        ensures { value_of result ≡ Some value }
    {
        Optional {
            value,
            is_some: true,
        }
    }

    pub(crate) fn get(&self) -> Option<u64>
        ensures { result ≡ value_of self.now }
    {
        if self.is_some { Some(self.value) } else { None }
    }
}
