//! The handle that C keeps.

ghost use Rattle.std.specs.Prelude.{◌≡◌, nat_eq};
ghost use Rattle.nit_c.specs.Held.{IsClosed, Kept, kept_coded, live_mark};

use crate::raw_box::RawBox;
use nit_host::Host;
use std::alloc::Global;
use std::marker::Model;
use std::mem::replace;

/// The mark of a live handle.
const LIVE: u64 = 0x6E69_7470_6963_6B65;

/// What C keeps of a server: the address of its box, and a mark. It is live where the mark is that
/// of a live handle, and then it owns the box. With any other mark it owns nothing, as one whose
/// bytes are 0. A live one that is let go, or written over, never frees its server.
#[repr(C)]
#[derive(Drop)]
pub struct NitServer {
    pub at: *mut u8,
    pub mark: u64,
    pub ghost value: { Kept } by { kept_coded },
}

impl Model for NitServer {
    ghost use Rattle.nit_c.specs.Held.{held_owns};

    ghost also_owns = { λ h. held_owns h.mark h.at h.value };
}

impl NitServer {
    /// A handle that is not live.
    fn closed() -> NitServer
        ensures { IsClosed result.at result.mark }
    {
        NitServer {
            at: std::ptr::null_mut(),
            mark: 0,
        }
    }

    /// The live handle of a server in a box.
    pub(crate) fn of(server: Box<Host, Global>) -> NitServer
        ensures live { result.mark ≡ live_mark }
        ensures value { result.value ≡ server.value }
    {
        NitServer::of_raw(RawBox::of(server), LIVE)
    }

    /// Whether the handle is live.
    pub(crate) fn is_live(&mut self) -> bool
        ensures same { self.new ≡ self.old }
        ensures live { result ≡ nat_eq self.old.mark live_mark }
    {
        self.mark() == LIVE
    }

    /// The server of a live handle, in its box. The handle is closed then.
    pub(crate) fn take(&mut self, alloc: Global) -> Box<Host, Global>
        requires live { self.old.mark ≡ live_mark }
        ensures value { result.value ≡ self.old.value }
        ensures closed { IsClosed self.new.at self.new.mark }
    {
        replace(self, NitServer::closed())
            .into_raw()
            .into_box(alloc)
    }

    /// The mark.
    fn mark(&mut self) -> u64
        ensures same { self.new ≡ self.old }
        ensures mark { result ≡ self.old.mark }
    {
        self.mark
    }

    /// The handle of a raw box with this mark, which is that of a live handle.
    fn of_raw(server: RawBox<Host>, mark: u64) -> NitServer
        requires { mark ≡ live_mark }
        ensures live { result.mark ≡ live_mark }
        ensures value { result.value ≡ server.value }
    {
        let RawBox { at } = server;
        NitServer {
            at: at as *mut u8,
            mark,
        }
    }

    /// The raw box of a live handle.
    fn into_raw(self) -> RawBox<Host>
        requires { self.mark ≡ live_mark }
        ensures { result.value ≡ self.value }
    {
        let NitServer { at, mark: _ } = self;
        RawBox {
            at: at as *mut Host,
        }
    }
}
