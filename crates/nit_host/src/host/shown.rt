//! What is remembered of the last look: whose view each pixel showed.

ghost use Rattle.std.specs.Prelude.{◌≡◌, ◌≤◌, drop, false, find, true, vec_capacity};
ghost use Rattle.nit_host.specs.Terms.{covers, is_same_client, most_picture_height, most_slots};
ghost use Rattle.nit_host.specs.Terms.{owner, owner_shown};

use crate::host::Host;
use nit_desktop::Desktop;
use nit_rect::{MOST_SESSIONS, Point};
use nit_stack::View;

impl Host {
    /// The view that owned the pixel in column `x` and row `y` as the last look had it. `None` where
    /// no view did, where there was no look yet, and where there is no such pixel.
    pub fn owner_shown(&self, x: u32, y: u32) -> Option<View>
        ensures { result ≡ owner_shown self.now x y }
    {
        self.facts();
        let (width, height) = self.size();
        if width <= x || height <= y {
            return None;
        }
        let p = Point {
            x: x as i32,
            y: y as i32,
        };
        owner_among(self.shown.as_slice(), self.desktop.bar(), p)
    }
}

/// Remembers the views as they stand, front first, in place of those that were shown. It takes no
/// memory, and no time where these are known to `stand` so.
pub(crate) fn remember(desktop: &Desktop, stand: bool, shown: &mut Vec<View>)
    requires room { most_slots ≤ vec_capacity shown.old }
    requires stand { stand ≡ true → shown.old.items ≡ desktop.now.state.stack }
    ensures views { shown.new.items ≡ desktop.now.state.stack }
    ensures room { vec_capacity shown.new ≡ vec_capacity shown.old }
{
    if stand {
        return;
    }
    shown.clear();
    'views: for i in 0..desktop.views() {
        shown.push_reserved(desktop.view(i));
    }
}

/// Whether views are known to stand as they did, by whether they were before a step that may have
/// moved them.
pub(crate) fn still_stand(stand: bool, may_move: bool) -> bool
    ensures stand { result ≡ true → stand ≡ true }
    ensures still { result ≡ true → may_move ≡ false }
{
    stand && !may_move
}

/// The view that owns a pixel among these, front first, below a bar of so many rows.
pub(crate) fn owner_among(views: &[View], rows: u32, p: Point) -> Option<View>
    requires { rows ≤ most_picture_height }
    ensures { result ≡ owner rows views.now p }
{
    if p.y < rows as i32 {
        None
    } else {
        first_covering(views, p)
    }
}

/// The front-most view that covers a pixel.
fn first_covering(views: &[View], p: Point) -> Option<View>
    ensures { result ≡ find (λ v. covers v.rect p) views.now }
{
    for view in views {
        if view.rect.covers(p) {
            return Some(*view);
        }
    }
    None
}

/// Whether the client that a seat had at the last look is the one that this seat has now. `came`
/// says to which seats a client has come since.
pub(crate) fn is_same_client(
    came: &[bool; MOST_SESSIONS],
    seen: Option<u32>,
    now: Option<u32>,
) -> bool
    ensures { result ≡ is_same_client came.now seen now }
{
    match (seen, now) {
        (None, None) => true,
        (Some(seat), Some(other)) => {
            seat == other && (seat as usize) < MOST_SESSIONS && !came[seat as usize]
        }
        _ => false,
    }
}
