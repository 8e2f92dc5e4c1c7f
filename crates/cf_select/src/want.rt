/// Which carriers an instance asks for: any, one of a device, a starred one of a device, or a unit of a device.
#[derive(Clone, Copy, PartialEq, Eq, Hash)]
pub enum Carrier {
    Any,
    Of(u32),
    Starred(u32),
    Unit(u32, u32),
}

/// What an instance waits for: a carrier that offers an attribute.
#[derive(Clone, Copy, PartialEq, Eq, Hash)]
pub struct Want {
    pub attr: u32,
    pub carrier: Carrier,
}
