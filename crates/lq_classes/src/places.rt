//! The numbers of variables, and behind each the places of its fields.

ghost use Rattle.std.specs.Prelude.{◌≡◌, ◌+◌, ◌*◌, ◌^◌, ◌<◌, ◌≤◌};

/// So many variables, and so many fields with a place behind each.
#[derive(Clone, Copy)]
pub(crate) struct Places {
    pub(crate) count: usize,
    pub(crate) fields: usize,
    pub(crate) ghost few: { fields ≤ 2 ^ 32 },
    pub(crate) ghost small: { count * (fields + 1) < 2 ^ 64 },
}

impl Places {
    ghost use Rattle.lq_classes.specs.Joins as spec;

    /// How many variables and places there are.
    pub(crate) fn len(self) -> usize
        ensures { result ≡ (self.fields + 1) * self.count }
    {
        (self.fields + 1) * self.count
    }

    /// The place of a field behind the variable with this number.
    pub(crate) fn place(self, number: usize, field: usize) -> usize
        requires number { number < self.count }
        requires field { field < self.fields }
        ensures { result ≡ spec.place self.count number field }
    {
        (field + 1) * self.count + number
    }
}
