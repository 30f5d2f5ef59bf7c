//! Words that are 0, of which a table is made.

ghost use Rattle.std.specs.Prelude.{◌≡◌};
ghost use Rattle.nit_pixels.specs.Terms.{IsRunDonation, most_run_words, table_size, zeros};

use nit_slots::table_size;

/// As many as the largest table of a run has. They are the program's own, so that making a table
/// takes no memory but the table's.
static ZEROS: [u64; 1_048_576] = [0; 1_048_576];

/// As many as the table of a session of a run has that opens with this donation.
pub(crate) fn zero_words(donation: u32) -> &'static [u64]
    requires { IsRunDonation donation }
    ensures { result.now ≡ zeros (table_size donation) }
{
    let count = table_size(donation) as usize;
    &all()[..count]
}

/// All of them.
#[tactic(auto, unfolding(nit_word::specs::Zeros::zeros))]
fn all() -> &'static [u64; 1_048_576]
    ensures { result.now ≡ zeros most_run_words }
{
    &ZEROS
}
