//! What verdicts say of each other, and of journals.

ghost use Rattle.std.specs.Prelude.{◌≡◌, ◌<◌, ℕ, List, length};
ghost use Rattle.nit_audit.specs.Terms.{Call, Configuration, Entry, IsGoodFor, IsLegal, IsVerdict};
ghost use Rattle.nit_audit.specs.Terms.{IsWhole, UserAction, Verdict, alone, donation_of};
ghost use Rattle.nit_audit.specs.Terms.{projection, replies_to};
ghost use Rattle.nit_audit.specs.declared.auditing.Verdict.TheVariants as verdict;

use nit_journal::laws::isolation;

/// Only one verdict is the one on a list of entries.
pub fn verdict_is_one()
    ensures { (config : Configuration) (clients : List (List (ℕ × Call)))
        → (user : List (ℕ × UserAction)) (entries : List Entry) (a b : Verdict)
        → IsVerdict (IsGoodFor config clients user) entries a
        → IsVerdict (IsGoodFor config clients user) entries b → a ≡ b }
{}

/// `Yes` is the verdict on the journals that are legal and whole, and on no others.
pub fn yes_is_legal_and_whole()
    ensures says { (config : Configuration) (clients : List (List (ℕ × Call)))
        → (user : List (ℕ × UserAction)) (entries : List Entry)
        → IsVerdict (IsGoodFor config clients user) entries verdict.Yes
        → IsLegal config entries × IsWhole clients user entries }
    ensures comes { (config : Configuration) (clients : List (List (ℕ × Call)))
        → (user : List (ℕ × UserAction)) (entries : List Entry)
        → IsLegal config entries → IsWhole clients user entries
        → IsVerdict (IsGoodFor config clients user) entries verdict.Yes }
{}

/// Where `Yes` is the verdict, each client got the replies of a machine that serves it alone: they
/// come from its donation, its own calls and the items that were routed to it.
pub fn yes_is_served_alone()
    ensures { (config : Configuration) (clients : List (List (ℕ × Call)))
        → (user : List (ℕ × UserAction)) (entries : List Entry) (s : ℕ)
        → IsVerdict (IsGoodFor config clients user) entries verdict.Yes
        → s < length config.clients
        → replies_to s entries ≡ alone (donation_of config s) (projection s entries) }
{
    isolation();
}
