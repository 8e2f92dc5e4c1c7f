ghost use Rattle.std.specs.Prelude.{◌≡◌, ◌<◌, ℕ, true, false, not, [], ◌∷◌, ◌++◌, ◌==◌, length, map, slice_get, Some, if◌then◌else◌, All, IfOk, OnOk};
ghost use Rattle.std.specs.List.{slice_index_or};
ghost use Rattle.config_rules.specs.Declared.{Declared};
ghost use Rattle.config_rules.specs.Meaning.{inst_of};
ghost use Rattle.config_rules.specs.Select.{AreRooted, RootedInsts, carries_at, is_at_root, is_at_root_at};
ghost use Rattle.attr_graph.specs.Graphs.{IsGraphOf};
ghost use Rattle.cf_types.specs.Gather.{is_in};
ghost use Rattle.cf_select.specs.Carried.{ReachedIn, RootedIn, interfaces_in, offered_in};
ghost use Rattle.cf_select.specs.Reached.{AllRooted, AreMarked, AreWaiting, AreWithin, Marks};
ghost use Rattle.cf_select.specs.Spread.{Goes};
ghost use Rattle.cf_select.specs.Wanted.{carriers_of, wants_at, wants_of};
ghost use Rattle.cf_select.specs.declared.want.Want.{Want as Wanted};

use crate::waiting::Waiting;
use crate::want::{Carrier, Want};
use crate::wants::{own_carrier, waiting_lists};
use attr_graph::Graph;
use cf_types::{Instance, List, Memory, Place};
use std::alloc::Global;

/// Which places are marked, with those places in the order in which they were marked, and who still waits.
#[derive(Drop)]
struct Reached {
    waiting: Waiting,
    marks: Vec<bool>,
    order: Vec<usize>,
}

/// Marks a place, and appends it to those that are marked, unless it is one of them.
fn mark(marks: &mut Vec<bool>, order: &mut Vec<usize>, place: usize) -> Result<(), Memory>
    requires { place < length marks.old.items }
    ensures { OnOk result (Marks marks.old.items order.old.items marks.new.items order.new.items (λ x. place == x)) }
{
    if !marks[place] {
        order.push(place)?;
        marks[place] = true;
    }
    Ok(())
}

/// Marks these places.
fn mark_all(marks: &mut Vec<bool>, order: &mut Vec<usize>, places: &[usize]) -> Result<(), Memory>
    requires { All (λ x. x < length marks.old.items) places.now }
    ensures { OnOk result (Marks marks.old.items order.old.items marks.new.items order.new.items (λ x. is_in x places.now)) }
{
    for place in places {
        mark(marks, order, *place)?;
    }
    Ok(())
}

/// Marks all that wait for this, and they wait no longer.
fn serve_want(alloc: Global, reached: &mut Reached, want: Want) -> Result<(), Memory>
    requires { AreWithin reached.old.waiting.lists reached.old.marks.items }
    ensures { OnOk result (Goes reached.old reached.new (want ∷ [])) }
{
    let places = reached.waiting.take(alloc, &want);
    mark_all(&mut reached.marks, &mut reached.order, places.items())?;
    Ok(())
}

/// Marks all that wait for an instance because of an attribute that it offers.
fn serve_attr(
    alloc: Global,
    reached: &mut Reached,
    attr: u32,
    instance: &Instance,
) -> Result<(), Memory>
    requires { AreWithin reached.old.waiting.lists reached.old.marks.items }
    ensures { OnOk result (Goes reached.old reached.new (wants_of (inst_of instance.now) (attr ∷ []))) }
{
    if !reached.waiting.is_noted(attr) {
        return Ok(());
    }
    let any = Carrier::Any;
    let of_device = Carrier::Of(instance.joined.device);
    let own = own_carrier(instance);
    serve_want(alloc, reached, Want { attr, carrier: any })?;
    serve_want(
        alloc,
        reached,
        Want {
            attr,
            carrier: of_device,
        },
    )?;
    serve_want(alloc, reached, Want { attr, carrier: own })?;
    Ok(())
}

/// Marks all that an instance can carry, of those that wait.
fn serve(
    alloc: Global,
    graph: &Graph,
    reached: &mut Reached,
    instance: &Instance,
) -> Result<(), Memory>
    requires known { instance.now.joined.device < length graph.now.devices }
    requires within { AreWithin reached.old.waiting.lists reached.old.marks.items }
    ensures { OnOk result (Goes reached.old reached.new (wants_of (inst_of instance.now) (interfaces_in graph.now instance.now.joined.device))) }
{
    for attr in graph.interfaces(instance.joined.device) {
        serve_attr(alloc, reached, *attr, instance)?;
    }
    Ok(())
}

/// The instance at a place.
fn instance_at(instances: &[Instance], place: usize) -> &Instance
    requires { place < length instances.now }
    ensures { slice_get instances.now place ≡ Some result.now }
{
    &instances[place]
}

/// Marks all that are rooted, starting from the marked ones at the root; the others wait.
fn spread(
    alloc: Global,
    graph: &Graph,
    instances: &[Instance],
    reached: &mut Reached,
) -> Result<(), Memory>
    requires known { All (λ i. i.joined.device < length graph.now.devices) instances.now }
    requires size { length reached.old.marks.items ≡ length instances.now }
    requires order { AreMarked reached.old.marks.items reached.old.order.items }
    requires within { AreWithin reached.old.waiting.lists reached.old.marks.items }
    requires waiting { AreWaiting (wants_at (map inst_of instances.now)) reached.old.waiting.lists reached.old.marks.items }
    requires sound { AllRooted (is_at_root_at (map inst_of instances.now)) (carries_at (offered_in graph.now) (map inst_of instances.now))
        (length instances.now) reached.old.marks.items }
    requires roots { (i : ℕ) → i < length instances.now → is_at_root_at (map inst_of instances.now) i ≡ true
        → slice_index_or reached.old.marks.items i false ≡ true }
    ensures { OnOk result (ReachedIn graph.now (map inst_of instances.now) (length instances.now) reached.new.marks.items) }
{
    let mut next = 0;
    while next < reached.order.len() {
        let instance = instance_at(instances, reached.order[next]);
        serve(alloc, graph, reached, instance)?;
        next += 1;
    }
    Ok(())
}

/// Whether an instance is at the root.
fn is_at_root(instance: &Instance) -> bool
    ensures { result ≡ is_at_root (inst_of instance.now) }
{
    matches!(instance.joined.place, Place::Root)
}

/// Appends a place, if it is that of an instance at the root.
fn push_root(order: &mut Vec<usize>, is_root: bool, place: usize) -> Result<(), Memory>
    ensures { OnOk result (order.new.items ≡ (if is_root then order.old.items ++ place ∷ [] else order.old.items)) }
{
    if is_root {
        order.push(place)?;
    }
    Ok(())
}

/// For each instance whether it is at the root, and the places of those that are.
fn mark_roots(
    marks: &mut Vec<bool>,
    order: &mut Vec<usize>,
    instances: &[Instance],
) -> Result<(), Memory>
    requires marks { marks.old.items ≡ [] }
    requires order { order.old.items ≡ [] }
    ensures marks { OnOk result (marks.new.items ≡ map (λ i. is_at_root (inst_of i)) instances.now) }
    ensures order { OnOk result (AreMarked marks.new.items order.new.items) }
{
    for (place, instance) in instances.iter().enumerate() {
        let is_root = is_at_root(instance);
        push_root(order, is_root, place)?;
        marks.push(is_root)?;
    }
    Ok(())
}

/// The marks of the instances that are rooted.
fn rooted_marks(alloc: Global, graph: &Graph, instances: &[Instance]) -> Result<Vec<bool>, Memory>
    requires { All (λ i. i.joined.device < length graph.now.devices) instances.now }
    ensures { IfOk result (λ marks. RootedIn graph.now (map inst_of instances.now) marks.items) }
{
    let mut marks = Vec::new(alloc);
    let mut order = Vec::new(alloc);
    mark_roots(&mut marks, &mut order, instances)?;
    let waiting = waiting_lists(alloc, instances)?;
    let mut reached = Reached {
        waiting,
        marks,
        order,
    };
    spread(alloc, graph, instances, &mut reached)?;
    let Reached { marks, .. } = reached;
    Ok(marks)
}

/// For each instance, of a device of the graph, whether it is rooted: a chain of instances, each of which can carry the
/// next, leads to it from one at the root. If the graph is that of the tables, these are the instances that are rooted
/// in the tables. The only error is `Memory`. See config(5) on orphans.
pub fn rooted(alloc: Global, graph: &Graph, instances: &[Instance]) -> Result<List<bool>, Memory>
    requires { All (λ i. i.joined.device < length graph.now.devices) instances.now }
    ensures graph { IfOk result (λ marks. RootedIn graph.now (map inst_of instances.now) marks) }
    ensures tables { IfOk result (λ marks. (d : Declared) → IsGraphOf d graph.now → RootedInsts d (map inst_of instances.now) marks) }
{
    let marks = rooted_marks(alloc, graph, instances)?;
    Ok(List::from_vec(marks))
}
