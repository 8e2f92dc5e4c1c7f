//! What a run of the machine means: the types of events and of the world; its definitions are in specs/.
#![tactic(auto)]

mod deed;
mod event;
mod said;
mod shared_act;
mod world;

pub use deed::{Choice, CommandRefusal, Deed, PowerEnd};
pub use event::{Act, DepthName, Event, Format, Got, IoAnswer, PowerKind, Reply, Shown};
pub use said::{name_given, power_name};
pub use shared_act::SharedAct;
pub use world::{
    Activity, Arrival, Deferred, Dev, Frame, Key, ParentRef, Placing, Position, Ref, Setup, Span,
    Turn, Wait, Wanted,
};
