// A server: a device memory, its settings and what is registered.
ghost use Rattle.std.specs.Prelude.{◌≡◌, None};
ghost use Rattle.server.specs.Registered.{registered};

use crate::registration::Registration;
use crate::settings::Settings;

#[derive(Drop)]
pub struct Server<M> {
    pub memory: M,
    pub settings: Settings,
    pub registration: Registration,
}

impl<M> Server<M> {
    // A server just set up: the memory as it is, the write flag as given, and nothing registered.
    pub fn new(memory: M, write_flag: bool) -> Server<M>
        ensures memory { result.memory ≡ memory }
        ensures flag { result.settings.write_flag ≡ write_flag }
        ensures registered { registered result.registration ≡ None }
    {
        Server {
            memory,
            settings: Settings { write_flag },
            registration: Registration::new(),
        }
    }
}
