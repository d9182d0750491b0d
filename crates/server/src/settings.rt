// The settings of a server.
ghost use Rattle.std.specs.Prelude.{◌≡◌};

#[derive(Clone, Copy, PartialEq, Eq, Debug)]
pub struct Settings {
    // whether write commands are carried out
    pub write_flag: bool,
}

impl Settings {
    // Gives the write flag a value and says what it was.
    pub fn switch(&mut self, write_flag: bool) -> bool
        ensures was { result ≡ self.old.write_flag }
        ensures flag { self.new.write_flag ≡ write_flag }
    {
        std::mem::replace(&mut self.write_flag, write_flag)
    }
}
