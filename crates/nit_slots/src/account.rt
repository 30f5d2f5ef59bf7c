ghost use Rattle.std.specs.Prelude.{◌≡◌, ◌+◌, ◌-◌, ◌*◌, ◌<◌, ◌≤◌, OnOk, IfErr};
ghost use Rattle.nit_slots.specs.Terms.{IsAccount, IsDonation, IsShort, buffer_left, buffer_need};
ghost use Rattle.nit_slots.specs.Terms.{ceiling};
ghost use Rattle.nit_slots.specs.Terms.{first_account, most_side, most_views, most_words, room};
ghost use Rattle.nit_slots.specs.Terms.{table_size, upgraded, view_left, view_need, view_slots};

use crate::need::Need;
use nit_rect::{MOST_RUN_UNITS, MOST_UNITS};
use std::marker::Model;

/// The most views that a session has slots for.
pub const MOST_VIEWS: u32 = 64;

/// The cost of a view, in units.
const VIEW_UNITS: u32 = 256;

/// The cost of a word of the buffer, in units.
const WORD_UNITS: u32 = 8;

/// What a session of this opening donation never comes over, in units: 8388608, and 268435456 where
/// the donation is over 8388608 itself.
fn ceiling(donation: u32) -> u32
    ensures { result ≡ ceiling donation }
{
    if donation <= MOST_RUN_UNITS {
        MOST_RUN_UNITS
    } else {
        MOST_UNITS
    }
}

/// The most that a session of this opening donation can ever have, in units: twice the donation, at
/// most 8388608, or 268435456 where the donation is over 8388608. A session opens with
/// 256..=268435456 units.
pub fn room(donation: u32) -> u32
    requires { IsDonation donation }
    ensures { result ≡ room donation }
{
    (2 * donation).min(ceiling(donation))
}

/// The number of slots that a session of this opening donation gets for its views: one for each 256
/// units of its room, at most 64.
pub fn view_slots(donation: u32) -> u32
    requires { IsDonation donation }
    ensures { result ≡ view_slots donation }
{
    MOST_VIEWS.min(room(donation) / VIEW_UNITS)
}

/// The number of words that a session of this opening donation can ever pay for, one for each 8
/// units of its room: 64..=33554432.
pub fn table_size(donation: u32) -> u32
    requires { IsDonation donation }
    ensures size { result ≡ table_size donation }
    ensures range { (1 ≤ result) × (result ≤ most_words) }
{
    room(donation) / WORD_UNITS
}

/// What a session has and what it uses of it: the donation and the reserve in units, the number of
/// its views, and the number of its buffer's words. A view costs 256 units and a word 8.
#[derive(Clone, Copy, Debug, PartialEq, Eq)]
pub struct Account {
    donation: u32,
    reserve: u32,
    views: u32,
    words: u32,
}

impl Model for Account {
    ghost use Rattle.nit_slots.specs.Account.{AccountModel, account_model, IsAccount};

    ghost Value = { AccountModel };

    ghost view = { λ a. account_model a.donation a.reserve a.views a.words };

    ghost invariant = { λ a. IsAccount (account_model a.donation a.reserve a.views a.words) };

    ghost inverse = { λ b. record {
      donation = b.donation;
      reserve = b.reserve;
      views = b.views;
      words = b.words;
    } };
}

impl Account {
    /// The account of a session that opens with this donation, 256..=268435456 units. Nothing is
    /// used.
    pub fn new(donation: u32) -> Account
        requires { IsDonation donation }
        ensures { result ≡ first_account donation }
    {
        Account {
            donation,
            reserve: room(donation) - donation,
            views: 0,
            words: 0,
        }
    }

    /// Pays for one more view, where there are fewer than 64. Refused exactly where its 256 units
    /// are more than what views and words leave of the donation; the account is then unchanged.
    pub fn try_view(&mut self) -> Result<(), Need>
        requires { self.old.views < most_views }
        ensures paid { OnOk result
            ((view_need ≤ view_left self.old.donation self.old.views self.old.words)
            × (self.new ≡ record self.old { views = self.old.views + 1 })) }
        ensures refused { IfErr result (λ e.
            IsShort e view_need (view_left self.old.donation self.old.views self.old.words)
            × (self.new ≡ self.old)) }
    {
        let left = self.donation - VIEW_UNITS * self.views - WORD_UNITS * self.words;
        afford(VIEW_UNITS, left)?;
        self.views += 1;
        Ok(())
    }

    /// Pays for a buffer of w by h words in place of the old one, each side 1..=4096. Refused
    /// exactly where its 8 units a word are more than what views leave of the donation, as the old
    /// buffer is given back first; the account is then unchanged.
    pub fn try_buffer(&mut self, w: u32, h: u32) -> Result<(), Need>
        requires width { (1 ≤ w) × (w ≤ most_side) }
        requires height { (1 ≤ h) × (h ≤ most_side) }
        ensures paid { OnOk result
            ((buffer_need w h ≤ buffer_left self.old.donation self.old.views)
            × (self.new ≡ record self.old { words = w * h })) }
        ensures refused { IfErr result (λ e.
            IsShort e (buffer_need w h) (buffer_left self.old.donation self.old.views)
            × (self.new ≡ self.old)) }
    {
        let left = self.donation - VIEW_UNITS * self.views;
        let words = w * h;
        afford(WORD_UNITS * words, left)?;
        self.words = words;
        Ok(())
    }

    /// Gives the units of one view back. There is at least one.
    pub fn drop_view(&mut self)
        requires { 1 ≤ self.old.views }
        ensures { self.new ≡ record self.old { views = self.old.views - 1 } }
    {
        self.views -= 1;
    }

    /// Moves n units from the reserve to the donation. Refused exactly where n is over the reserve;
    /// the account is then unchanged.
    pub fn upgrade(&mut self, n: u32) -> Result<(), Need>
        ensures raised { OnOk result ((n ≤ self.old.reserve) × (self.new ≡ upgraded self.old n)) }
        ensures refused { IfErr result (λ e. IsShort e n self.old.reserve × (self.new ≡ self.old)) }
        ensures sum { self.new.donation + self.new.reserve ≡ self.old.donation + self.old.reserve }
    {
        afford(n, self.reserve)?;
        self.donation += n;
        self.reserve -= n;
        Ok(())
    }

    /// Gives everything that is used back. Donation and reserve stay.
    pub fn clear(&mut self)
        ensures { self.new ≡ record self.old { views = 0; words = 0 } }
    {
        self.views = 0;
        self.words = 0;
    }

    /// The donation, in units, with what was moved to it from the reserve.
    pub fn donation(&self) -> u32
        ensures value { result ≡ self.now.donation }
        ensures covered { IsAccount self.now }
    {
        self.donation
    }

    /// What the donation may still be raised by, in units.
    pub fn reserve(&self) -> u32
        ensures value { result ≡ self.now.reserve }
        ensures covered { IsAccount self.now }
    {
        self.reserve
    }

    /// The number of views that are paid for.
    pub fn views(&self) -> u32
        ensures value { result ≡ self.now.views }
        ensures covered { IsAccount self.now }
    {
        self.views
    }

    /// The number of the buffer's words.
    pub fn words(&self) -> u32
        ensures value { result ≡ self.now.words }
        ensures covered { IsAccount self.now }
    {
        self.words
    }
}

/// Whether the need is covered. The refusal says both numbers.
fn afford(need: u32, left: u32) -> Result<(), Need>
    ensures ok { OnOk result (need ≤ left) }
    ensures err { IfErr result (λ e. IsShort e need left) }
{
    if need > left {
        return Err(Need {
            need: u64::from(need),
            left: u64::from(left),
        });
    }
    Ok(())
}
