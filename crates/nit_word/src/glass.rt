//! What every glass promises of a load.
ghost use Rattle.std.specs.Prelude.{◌≡◌, ◌+◌, ◌^◌, ◌<◌, ◌≤◌, [], ◌∷◌, length};
ghost use Rattle.nit_word.specs.Terms.{IsLoaded, IsLoadedRow, Sight, TellsAll, enumerate_from};
ghost use Rattle.nit_word.specs.Terms.{seen};

/// Words of one owner, to be loaded one at a time.
pub trait Glass {
    /// What contracts see of a glass besides its sight. No value of it is made.
    type Rest;

    ghost sight: { Self → Sight };

    ghost rest: { Self → Self.Rest };

    /// The word at place `i`, which is below the glass's size. The word is below 2^24 and is 0 or
    /// what the ink has there, and where the glass tells its words it is the told word at `i`.
    /// Where the glass keeps a log, `i` and the word are added at its end. All else about the glass
    /// stays.
    fn load(&mut self, i: usize) -> u32
        requires { i < (sight self.old).size }
        ensures loaded { IsLoaded (sight self.old) i result }
        ensures filled { TellsAll (sight self.old) }
        ensures sight { sight self.new ≡ seen (sight self.old) ((i, result) ∷ []) }
        ensures rest { rest self.new ≡ rest self.old };

    /// Loads as many words as the row has, each once, the first one at place `from` and each other
    /// one at the next place, and sets the row to them. All these places are below the glass's
    /// size. Of each word holds what [`load`](Glass::load) says, and a log has the loads in this
    /// order.
    fn load_row(&mut self, from: usize, row: &mut [u32])
        requires places { from + length row.old ≤ (sight self.old).size }
        requires range { from + length row.old < 2 ^ 64 }
        ensures count { length row.new ≡ length row.old }
        ensures loaded { IsLoadedRow (sight self.old) from row.new }
        ensures sight { sight self.new ≡ seen (sight self.old) (enumerate_from from row.new) }
        ensures rest { rest self.new ≡ rest self.old }
    {
        'places: for j in 0..row.len() {
            row[j] = self.load(from + j);
        }
    }
}
