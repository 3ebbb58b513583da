// Whether a machine is sound. One function for each clause of the definition, under the clause's name, in a file for each
// part of the machine that the clause is about; each takes the parts that it reads, and asks of them what it needs. The
// functions here, which join the clauses, take the machine, with what is known of it by then where a clause asks for it. The
// whole is linear in the pages, the guests, and the handles with their places, in what is copied too: what a function only
// reads is lent to it.

#![tactic(auto)]

mod blank;
mod counts;
mod deals;
mod known;
mod mailboxes;
mod marks;
mod messages;
mod owners;
mod pages;
mod places;
mod records;

ghost use Rattle.std.specs.Prelude.{◌≡◌};
ghost use Rattle.isa.specs.Tests.{◌and◌};
ghost use Rattle.sound.specs.Known.{Counts, Ranges};
ghost use Rattle.model.specs.Sound.{lengths_in_range, mailboxes_differ, senders_below, no_own_sender, parties_differ, pages_ascend, pages_no_mailbox, no_donation_retrieved, no_page_twice, guests_blank, pages_blank, places_blank, sound};

use known::{Counted, Ranged};
use model::Machine;

// The counts: of guests, of pages, and of the transactions' pages.
fn counts_sound(machine: &Machine) -> bool
    ensures { result ≡ Counts machine.now }
{
    parts::counts_in_range(u16::from(machine.n), u16::from(machine.m))
        & counts::page_counts_in_range(&machine.transactions)
}

// Everything that stands for a guest or a page, but for the current guest and the messages' senders, is in range.
fn in_range(counted: &Counted) -> bool
    ensures { result ≡ Ranges counted.now.machine.now }
{
    let machine = counted.machine;
    mailboxes::mailboxes_below(machine.n, machine.m, &machine.mailboxes)
        & (owners::owners_below(machine.n, machine.m, &machine.records)
            & (deals::parties_below(machine.n, &machine.transactions)
                & places::pages_below(machine.m, &machine.transactions)))
}

// No page has two uses.
fn uses_differ(ranged: &Ranged) -> bool
    ensures { result ≡ (mailboxes_differ ranged.now.machine.now.n ranged.now.machine.now.mailboxes and pages_no_mailbox ranged.now.machine.now.n ranged.now.machine.now.mailboxes ranged.now.machine.now.transactions and no_page_twice ranged.now.machine.now.transactions) }
{
    let machine = ranged.machine;
    mailboxes::mailboxes_differ(machine.n, &machine.mailboxes)
        & (places::pages_no_mailbox(machine.n, &machine.mailboxes, &machine.transactions)
            & places::no_page_twice(&machine.transactions))
}

// The waiting messages.
fn messages_sound(machine: &Machine) -> bool
    ensures { result ≡ (lengths_in_range machine.now.n machine.now.inboxes and senders_below machine.now.n machine.now.inboxes and no_own_sender machine.now.n machine.now.inboxes) }
{
    messages::lengths_in_range(machine.n, &machine.inboxes)
        & (messages::senders_below(machine.n, &machine.inboxes)
            & messages::no_own_sender(machine.n, &machine.inboxes))
}

// What is left of the transactions' clauses.
fn deals_sound(counted: &Counted) -> bool
    ensures { result ≡ (parties_differ counted.now.machine.now.transactions and pages_ascend counted.now.machine.now.transactions and no_donation_retrieved counted.now.machine.now.transactions) }
{
    let machine = counted.machine;
    deals::parties_differ(&machine.transactions)
        & (places::pages_ascend(&machine.transactions)
            & deals::no_donation_retrieved(&machine.transactions))
}

// Unused places.
fn unused_blank(machine: &Machine) -> bool
    ensures { result ≡ (guests_blank machine.now.n machine.now.registers machine.now.mailboxes machine.now.inboxes and pages_blank machine.now.m machine.now.records and places_blank machine.now.transactions) }
{
    blank::guests_blank(
        machine.n,
        &machine.registers,
        &machine.mailboxes,
        &machine.inboxes,
    ) & (blank::pages_blank(machine.m, &machine.records)
        & blank::places_blank(&machine.transactions))
}

// Whether the machine is sound: the counts first, and what stands for a guest or a page, so that the rest can be read.
pub fn is_sound(machine: &Machine) -> bool
    ensures { result ≡ sound machine.now }
{
    if !counts_sound(machine) {
        return false;
    }
    let counted = Counted { machine };
    if !in_range(&counted) {
        return false;
    }
    let ranged = Ranged { machine };
    if !uses_differ(&ranged) {
        return false;
    }
    (machine.current.0 < machine.n)
        & (messages_sound(machine)
            & (deals_sound(&counted)
                & (records::records_due(
                    machine.n,
                    machine.m,
                    &machine.mailboxes,
                    &machine.transactions,
                    &machine.records,
                ) & unused_blank(machine))))
}
