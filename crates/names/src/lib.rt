// Names and texts (SPECIFICATION 14): definitions and laws. The code is in `lookup` and `scan`.
#![tactic(auto)]

ghost use Rattle.std.specs.Prelude.{◌≡◌, ◌*◌, ◌<◌, length};
ghost use Rattle.names.specs.Names.{name_at, names_of};

// The work words of both calls: one bit for each of 2^22 values, and 4,097 words behind them.
pub const WORK: usize = 135169;

// What is lent as names: their width, their bytes end to end, and the object that each of them names.
// Stays (6): the C interface lends them so (`kullneyra_scan`), and a name is found by its number alone.
#[derive(Clone, Copy)]
pub struct LentNames<'a> {
    pub width: usize,
    pub bytes: &'a [u8],
    pub objects: &'a [u32],
}

// What is lent as texts: their bytes end to end, where each of them ends, and the object that owns it.
// Stays (6): the C interface lends them so (`kullneyra_scan`).
#[derive(Clone, Copy)]
pub struct LentTexts<'a> {
    pub bytes: &'a [u8],
    pub ends: &'a [u64],
    pub owners: &'a [u32],
}

impl<'a> LentNames<'a> {
    // Name k.
    pub fn name(&self, k: usize) -> &'a [u8]
        requires long { length self.now.bytes.now ≡ self.now.width * length self.now.objects.now }
        requires there { k < length self.now.objects.now }
        ensures bytes { result.now ≡ name_at (names_of self.now.width self.now.bytes.now self.now.objects.now) k }
        ensures long { length result.now ≡ self.now.width }
    {
        let start = k * self.width;
        &self.bytes[start..start + self.width]
    }
}
