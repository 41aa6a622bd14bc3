// The waiting list of a block in a chunk. Each function is total: a count above 8 stands for 8 entries, and what lies in unused places
// does not survive.
#![tactic(auto)]

ghost use Rattle.std.specs.List.{prefix_len};
ghost use Rattle.std.specs.Prelude.{◌≤◌, ◌≡◌, not};
ghost use Rattle.rules.specs.Limits.{waiting_limit};
ghost use Rattle.rules.specs.Waiting.{in_order, holding, inserted, head, head_removed, first_with, decided_kind, marked};
ghost use Rattle.rules.specs.Timestamps.{◌below◌};

use rules::{Entry, Kind, Timestamp, Waiting};

// The same entries, with the unused places zero.
#[tactic(auto, unfolding(rules::specs::Waiting::holding))]
fn tidy(w: Waiting) -> Waiting
    ensures { (result ≡ holding (in_order w)) × (result.count ≤ waiting_limit) }
{
    Waiting {
        count: rows::used(w.count, &w.entries),
        entries: rows::used_from(0, w.count, w.entries, table_zero::entry()),
    }
}

// "the first entry in waiting order with that timestamp": its index, or the count when absent, by break (docs/RULES.md, forms by place).
pub fn find(w: Waiting, t: Timestamp) -> u64
    ensures { result ≡ first_with t (in_order w) }
{
    let n = rows::used(w.count, &w.entries);
    let mut i = 0;
    loop {
        if i == n {
            break n;
        }
        if w.entries[i as usize].timestamp == t {
            break i;
        }
        i += 1;
    }
}

// The place "after its equals": behind those that are not later.
fn behind(waiting: &[Entry], e: Entry) -> usize
    ensures { result ≡ prefix_len (λ x. not (e.timestamp below x.timestamp)) waiting.now }
{
    waiting
        .iter()
        .take_while(|x| x.timestamp <= e.timestamp)
        .count()
}

// The head; zero where there is none.
pub fn head(w: Waiting) -> Entry
    ensures { result ≡ head w }
{
    if w.count == 0 {
        return table_zero::entry();
    }
    w.entries[0]
}

// "it waits, after its equals": what stands behind it goes one place on. Beyond the eighth it is counted and has no place.
pub fn insert(w: Waiting, e: Entry) -> Waiting
    ensures { result ≡ inserted w e }
{
    let mut out = tidy(w);
    let p = behind(&out.entries[..out.count as usize], e);
    out.count += 1;
    if p < rules::WAITING {
        out.entries.copy_within(p..rules::WAITING - 1, p + 1);
        out.entries[p] = e;
    }
    out
}

// "The head is removed": what stands behind it goes one place forward.
#[tactic(auto, unfolding(rules::specs::Waiting::holding, rules::specs::Waiting::head_removed))]
pub fn remove_head(w: Waiting) -> Waiting
    ensures { result ≡ head_removed w }
{
    Waiting {
        count: rows::used(w.count, &w.entries).saturating_sub(1),
        entries: rows::used_from(1, w.count, w.entries, table_zero::entry()),
    }
}

// "if it is an undecided write, which becomes committed or aborted".
fn decide(k: Kind, commit: bool) -> Kind
    ensures { result ≡ decided_kind commit k }
{
    match k {
        Kind::Undecided(v) if commit => Kind::Committed(v),
        Kind::Undecided(v) => Kind::Aborted(v),
        _ => k,
    }
}

// "act on the first entry in waiting order with that timestamp": the struct is written anew.
pub fn mark(w: Waiting, t: Timestamp, commit: bool) -> Waiting
    ensures { result ≡ marked commit t w }
{
    let i = find(w, t);
    let mut out = tidy(w);
    if i < out.count {
        let e = out.entries[i as usize];
        out.entries[i as usize] = Entry {
            kind: decide(e.kind, commit),
            ..e
        };
    }
    out
}
