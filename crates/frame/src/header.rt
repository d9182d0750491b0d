// What the header of a request frame says.
// The two forms of a frame: a 4E frame also carries a serial.
#[derive(Clone, Copy, PartialEq, Eq, Debug)]
pub enum Form {
    ThreeE,
    FourE,
}

// The route: which station of which network the frame is for. Every route is accepted, and a reply carries it back.
#[derive(Clone, Copy, PartialEq, Eq, Debug)]
pub struct Route {
    pub network: u8,
    pub pc: u8,
    pub module_io: u16,
    pub station: u8,
}

// A frame's fields up to the length.
#[derive(Clone, Copy, PartialEq, Eq, Debug)]
pub(crate) struct Lead {
    pub(crate) form: Form,
    // 0 in a 3E frame, which has none: the form says so already, and the definitions take a serial in either form
    pub(crate) serial: u16,
    // the zero word of a 4E frame
    pub(crate) zero: u16,
    pub(crate) route: Route,
    pub(crate) length_at: usize,
    // how many wire bytes follow, from the timer on
    pub(crate) length: usize,
    pub(crate) timer_at: usize,
}

// The header of a frame that passed every test, and where the parts of the frame lie.
#[derive(Clone, Copy, PartialEq, Eq, Debug)]
pub struct Header {
    pub form: Form,
    // 0 in a 3E frame, which has none: the form says so already, and the definitions take a serial in either form
    pub serial: u16,
    pub route: Route,
    // read, and without effect
    pub timer: u16,
    pub command: u16,
    pub subcommand: u16,
    pub command_at: usize,
    pub data_at: usize,
    // how many wire bytes the whole frame has
    pub size: usize,
}
