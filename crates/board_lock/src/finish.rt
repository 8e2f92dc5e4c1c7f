//! The end of a run.
ghost use Rattle.std.specs.Prelude.{◌≡◌, ◌<◌, ◌+◌, length, sum_by};
ghost use Rattle.run_rules.specs.Counts.{ends_of, dids_of};
ghost use Rattle.board_lock.specs.Boards.{scripts_of};

use crate::names::Naming;
use crate::returned::Returned;
use crate::seat::Done;
use lease_table::LeaseTable;

/// Adds the shares of these callers to others, once they have given their leases back.
pub fn gather<N: Naming>(all: &mut Returned<N>, table: &LeaseTable, done: Vec<Done<N>>)
    requires table { table.now ≡ N.table }
    ensures parts { all.new.parts ≡ all.old.parts + length done.items }
    ensures closings { all.new.closings ≡ all.old.closings + sum_by (λ d. d.closings) done.items }
    ensures dids { all.new.dids ≡ all.old.dids + sum_by (λ d. d.dids) done.items }
    ensures rights { all.new.rights + sum_by (λ d. d.stops) done.items ≡ all.old.rights + length done.items }
{
    let mut done = done;
    while let Some(one) = done.pop() {
        all.merge(one.give_back(table));
    }
}

/// The shares of all callers, once they have given their leases back.
pub fn gather_all<N: Naming>(table: &LeaseTable, done: Vec<Done<N>>) -> Returned<N>
    requires table { table.now ≡ N.table }
    requires some { 0 < length done.items }
    ensures parts { result.parts ≡ length done.items }
    ensures closings { result.closings ≡ sum_by (λ d. d.closings) done.items }
    ensures dids { result.dids ≡ sum_by (λ d. d.dids) done.items }
    ensures rights { result.rights + sum_by (λ d. d.stops) done.items ≡ length done.items }
{
    let mut done = done;
    let Some(first) = done.pop() else {
        unreachable!()
    };
    let mut all = first.give_back(table);
    gather(&mut all, table, done);
    all
}
