//! Whether two calls, two replies or the deliveries of two events are the same.

ghost use Rattle.std.specs.Prelude.{◌≡◌, ◌↔◌, IsTrue};

use nit_events::{Call, Delivery, Item, Reply, Routed, Text};

/// A kind of which two can be compared.
pub(crate) trait Same {
    /// Whether the two are the same.
    fn is_same(&self, other: &Self) -> bool
        ensures { IsTrue result ↔ (self.now ≡ other.now) };
}

impl Same for Call {
    fn is_same(&self, other: &Call) -> bool {
        match *self {
            Call::Buffer(w, h) => matches!(*other, Call::Buffer(w2, h2) if w == w2 && h == h2),
            Call::View => matches!(*other, Call::View),
            Call::Place(v, x, y, w, h) => {
                matches!(*other, Call::Place(v2, x2, y2, w2, h2)
                    if v == v2 && x == x2 && y == y2 && w == w2 && h == h2)
            }
            Call::Offset(v, x, y) => {
                matches!(*other, Call::Offset(v2, x2, y2) if v == v2 && x == x2 && y == y2)
            }
            Call::Front(v) => matches!(*other, Call::Front(v2) if v == v2),
            Call::Back(v) => matches!(*other, Call::Back(v2) if v == v2),
            Call::Above(v, n) => matches!(*other, Call::Above(v2, n2) if v == v2 && n == n2),
            Call::Title(v, text) => {
                matches!(*other, Call::Title(v2, text2) if v == v2 && text.is_same(&text2))
            }
            Call::Destroy(v) => matches!(*other, Call::Destroy(v2) if v == v2),
            Call::Refresh(x, y, w, h) => {
                matches!(*other, Call::Refresh(x2, y2, w2, h2)
                    if x == x2 && y == y2 && w == w2 && h == h2)
            }
            Call::Take => matches!(*other, Call::Take),
            Call::Upgrade(n) => matches!(*other, Call::Upgrade(n2) if n == n2),
            Call::Close => matches!(*other, Call::Close),
        }
    }
}

impl Same for Text {
    fn is_same(&self, other: &Text) -> bool {
        self.as_bytes() == other.as_bytes()
    }
}

impl Same for Reply {
    fn is_same(&self, other: &Reply) -> bool {
        *self == *other
    }
}

impl Same for Routed {
    fn is_same(&self, other: &Routed) -> bool {
        self.a.is_same(&other.a) && self.b.is_same(&other.b) && self.c.is_same(&other.c)
    }
}

impl Same for Option<Delivery> {
    fn is_same(&self, other: &Option<Delivery>) -> bool {
        match *self {
            Some(d) => match *other {
                Some(e) => d.sid == e.sid && d.item.is_same(&e.item),
                None => false,
            },
            None => match *other {
                Some(_) => false,
                None => true,
            },
        }
    }
}

impl Same for Item {
    fn is_same(&self, other: &Item) -> bool {
        match *self {
            Item::Event(e) => match *other {
                Item::Event(f) => e == f,
                Item::Kill => false,
            },
            Item::Kill => match *other {
                Item::Event(_) => false,
                Item::Kill => true,
            },
        }
    }
}
