//! What the laws say of a room whose journal has one more entry.

ghost use Rattle.nit_hall.specs.Terms.{EntryLaws};

use crate::laws::clips_stay;
use nit_journal::laws::one_more_entry;
use nit_scene::laws::clean_pixels_keep_their_source;

/// What the laws of states, of journals and of clip lists say of one more entry.
pub(crate) fn one_more()
    ensures { EntryLaws }
{
    clips_stay();
    one_more_entry();
    clean_pixels_keep_their_source();
}
