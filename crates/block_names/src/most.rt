ghost use Rattle.std.specs.Prelude.{◌≡◌, ◌<◌, ◌≤◌, Some, None};

/// The number that counts most of those that were seen, the first of several, and how much it counts.
#[derive(Drop)]
pub(crate) struct Most {
    pub(crate) found: Option<usize>,
    pub(crate) count: usize,
}

impl Most {
    /// Nothing was seen.
    pub(crate) fn none() -> Most
        ensures found { result.found ≡ None }
        ensures count { result.count ≡ 0 }
    {
        Most {
            found: None,
            count: 0,
        }
    }

    /// Sees a number that counts so much.
    pub(crate) fn see(&mut self, number: usize, count: usize)
        ensures found { self.old.count < count → self.new.found ≡ Some number }
        ensures count { self.old.count < count → self.new.count ≡ count }
        ensures same { count ≤ self.old.count → self.new ≡ self.old }
    {
        if self.count < count {
            self.found = Some(number);
            self.count = count;
        }
    }
}
