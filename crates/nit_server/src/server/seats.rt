//! Sessions that open again, and what tells whether one may.

ghost use Rattle.std.specs.Prelude.{◌≡◌, ◌≢◌, ◌<◌, ◌≤◌, IsTrue, [], false, length, ℕ};
ghost use Rattle.nit_server.specs.Terms.{IsFreeLabel, client_in, donation_of, member};
ghost use Rattle.nit_server.specs.Terms.{most_sessions, no_size, relabelled, session_in};
ghost use Rattle.nit_server.specs.Terms.{size_of_buffer, with_opened};

use crate::server::Server;
use nit_config::{Config, Member};
use nit_glyph::Label;

impl Server {
    /// A session of which nothing is left is the first one of its donation again, under this label,
    /// which no other session has.
    pub fn open(&mut self, sid: u32, label: Label)
        requires session { sid < length self.old.sessions }
        requires free { IsFreeLabel self.old.config sid label }
        requires bare { (session_in self.old.sessions sid).handles ≡ [] }
        requires none { size_of_buffer (session_in self.old.sessions sid) ≡ no_size }
        ensures { self.new ≡ with_opened sid label self.old }
    {
        let _bytes = label.as_bytes();
        let donation = relabel(&mut self.config, sid, label);
        let member = &mut self.members[sid as usize];
        member.facts();
        member.open(donation);
    }

    /// The handle of the next view of the session `sid`.
    pub fn next_handle(&self, sid: u32) -> u32
        requires { sid < length self.now.sessions }
        ensures { result ≡ (session_in self.now.sessions sid).next }
    {
        self.members[sid as usize].next_handle()
    }

    /// The label of the session `sid`.
    pub fn label(&self, sid: u32) -> Label
        requires { sid < length self.now.sessions }
        ensures { result ≡ (member self.now.config sid).label }
    {
        self.facts();
        self.config.clients[sid as usize].label
    }

    /// The layer of the views of the session `sid`, 0..=7.
    pub fn layer(&self, sid: u32) -> u32
        requires { sid < length self.now.sessions }
        ensures { result ≡ (member self.now.config sid).layer }
    {
        self.facts();
        self.config.clients[sid as usize].layer
    }

    /// Whether no session but `sid` has this label.
    pub fn is_free(&self, sid: u32, label: &Label) -> bool
        ensures free { IsTrue result → IsFreeLabel self.now.config sid label.now }
        ensures taken { result ≡ false → IsFreeLabel self.now.config sid label.now → ⊥ }
    {
        self.facts();
        is_free(self.config.clients.as_slice(), sid, label)
    }
}

/// Whether no client but that of `sid` has this label.
fn is_free(clients: &[Member], sid: u32, label: &Label) -> bool
    requires { length clients.now ≤ most_sessions }
    ensures free { IsTrue result → ((t : ℕ) → t < length clients.now → t ≢ sid
        → (client_in clients.now t).label ≢ label.now) }
    ensures taken { result ≡ false → ((t : ℕ) → t < length clients.now → t ≢ sid
        → (client_in clients.now t).label ≢ label.now) → ⊥ }
{
    'clients: for i in 0..clients.len() {
        if i as u32 != sid && clients[i].label == *label {
            return false;
        }
    }
    true
}

/// The client of this session has this label. Gives its donation, in units.
fn relabel(config: &mut Config, sid: u32, label: Label) -> u32
    requires { sid < length config.old.clients }
    ensures config { config.new ≡ relabelled sid label config.old }
    ensures donation { result ≡ donation_of config.old sid }
{
    let client = &mut config.clients[sid as usize];
    client.label = label;
    client.donation
}
