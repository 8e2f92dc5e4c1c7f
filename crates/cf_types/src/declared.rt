use crate::{Attach, Attr, Device, List};

/// What the statements of a configuration declare so far: attributes, devices and attachments, each in order.
#[derive(Drop)]
pub struct Declared {
    pub attrs: List<Attr>,
    pub devices: List<Device>,
    pub attaches: List<Attach>,
}
