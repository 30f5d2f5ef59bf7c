//! Whole frames.

ghost use Rattle.std.specs.Prelude.{◌≡◌, ◌*◌, ◌≤◌, All, IsTrue, length, map};
ghost use Rattle.nit_screen.specs.Terms.{AreLabelled, IsOnlyCut, IsRoomFor, IsWord, draws_labels};
ghost use Rattle.nit_screen.specs.Terms.{frame, scenery_of, state_of};

use crate::screen::labels::Labels;
use nit_overlay::{LetteredLook, Look, frame_by_map};
use nit_repaint::Painter;
use nit_server::Server;

/// Up to so many views, to cut the screen and to search for each label by itself takes less time
/// than to map the owner of each pixel.
const FEW_VIEWS: u32 = 16;

/// Sets `out` to the whole frame. Where the mode draws labels, their places are worked out first.
pub(crate) fn frame_of(server: &Server, painter: &mut Painter, labels: &mut Labels, out: &mut [u32])
    requires room { server.now.stack.most ≤ painter.old.cutter.room }
    requires named { labels.old.texts.items ≡ map (λ m. m.label) server.now.config.clients }
    requires placed { server.now.stack.most ≤ length labels.old.places.items }
    requires mapped { IsRoomFor server.now.config.width server.now.config.height
        (length labels.old.places.items) labels.old.owners }
    requires pixels { length painter.old.raw.items
        ≡ server.now.config.width * server.now.config.height }
    requires out { length out.old ≡ server.now.config.width * server.now.config.height }
    requires words { All IsWord painter.old.raw.items }
    ensures kept { IsOnlyCut painter.old painter.new }
    ensures shown { out.new ≡ frame (scenery_of (state_of server.now)) painter.old.raw.items }
    ensures places { length labels.new.places.items ≡ length labels.old.places.items }
    ensures placed { IsTrue (draws_labels server.now.input.mode)
        → AreLabelled server.now.config.lettering server.now.stack labels.new.texts.items
        labels.new.places.items }
    ensures texts { labels.new.texts ≡ labels.old.texts }
    ensures owners { IsRoomFor server.now.config.width server.now.config.height
        (length labels.new.places.items) labels.new.owners }
{
    if server.stack().len() <= FEW_VIEWS {
        frame_by_pieces(server, painter, labels, out);
    } else {
        frame_of_map(server, painter.raw.as_slice(), labels, out);
    }
}

/// Makes the frame by the pieces that the screen is cut into.
fn frame_by_pieces(server: &Server, painter: &mut Painter, labels: &mut Labels, out: &mut [u32])
    requires room { server.now.stack.most ≤ painter.old.cutter.room }
    requires named { labels.old.texts.items ≡ map (λ m. m.label) server.now.config.clients }
    requires placed { server.now.stack.most ≤ length labels.old.places.items }
    requires mapped { IsRoomFor server.now.config.width server.now.config.height
        (length labels.old.places.items) labels.old.owners }
    requires pixels { length painter.old.raw.items
        ≡ server.now.config.width * server.now.config.height }
    requires out { length out.old ≡ server.now.config.width * server.now.config.height }
    requires words { All IsWord painter.old.raw.items }
    ensures kept { IsOnlyCut painter.old painter.new }
    ensures shown { out.new ≡ frame (scenery_of (state_of server.now)) painter.old.raw.items }
    ensures places { length labels.new.places.items ≡ length labels.old.places.items }
    ensures placed { IsTrue (draws_labels server.now.input.mode)
        → AreLabelled server.now.config.lettering server.now.stack labels.new.texts.items
        labels.new.places.items }
    ensures texts { labels.new.texts ≡ labels.old.texts }
    ensures owners { IsRoomFor server.now.config.width server.now.config.height
        (length labels.new.places.items) labels.new.owners }
{
    server.facts();
    let mode = server.mode();
    labels.place_each(mode, server.stack(), server.lettering());
    let look = LetteredLook {
        look: Look {
            stack: server.stack(),
            labels: labels.texts.as_slice(),
            mode,
            focus: server.focus(),
            places: labels.places.as_slice(),
        },
        lettering: server.lettering(),
    };
    painter.show_whole(&look, out);
}

/// Makes the frame by a map of the pixels' owners. Its time grows with the pixels, and not with the
/// pieces that they are in.
fn frame_of_map(server: &Server, raw: &[u32], labels: &mut Labels, out: &mut [u32])
    requires named { labels.old.texts.items ≡ map (λ m. m.label) server.now.config.clients }
    requires placed { server.now.stack.most ≤ length labels.old.places.items }
    requires mapped { IsRoomFor server.now.config.width server.now.config.height
        (length labels.old.places.items) labels.old.owners }
    requires pixels { length raw.now
        ≡ server.now.config.width * server.now.config.height }
    requires out { length out.old ≡ server.now.config.width * server.now.config.height }
    requires words { All IsWord raw.now }
    ensures shown { out.new ≡ frame (scenery_of (state_of server.now)) raw.now }
    ensures places { length labels.new.places.items ≡ length labels.old.places.items }
    ensures placed { IsTrue (draws_labels server.now.input.mode)
        → AreLabelled server.now.config.lettering server.now.stack labels.new.texts.items
        labels.new.places.items }
    ensures texts { labels.new.texts ≡ labels.old.texts }
    ensures owners { IsRoomFor server.now.config.width server.now.config.height
        (length labels.new.places.items) labels.new.owners }
{
    server.facts();
    let mode = server.mode();
    labels.owners.map(server.stack());
    labels.place_by_map(mode, server.stack(), server.lettering());
    let look = LetteredLook {
        look: Look {
            stack: server.stack(),
            labels: labels.texts.as_slice(),
            mode,
            focus: server.focus(),
            places: labels.places.as_slice(),
        },
        lettering: server.lettering(),
    };
    frame_by_map(&look, labels.owners.numbers(), raw, out);
}
