// A calibration window: while it stands, write commands are carried out; however it ends, the write flag is what it was.
ghost use Rattle.std.specs.Prelude.{◌≡◌, true, Some, None};
ghost use Rattle.server.specs.Histories.{opening, ending, window, State, with_flag};
ghost use Rattle.server.specs.Kept.{CarriesOn};

use crate::settings::Settings;

pub struct Window<'a> {
    settings: &'a mut Settings,
    // the write flag before the window
    was: bool,
}

impl<'a> Window<'a> {
    // Turns the write flag on until the window is dropped.
    pub fn open(settings: &'a mut Settings) -> Window<'a>
        ensures was { result.was ≡ settings.old.write_flag }
        ensures lends { result.settings.ghost_name ≡ settings.entry.ghost_name }
        ensures on { result.settings.now.write_flag ≡ true }
        ensures carries { (s : State) →
            let on = result.settings.now.write_flag in
            CarriesOn (with_flag settings.old.write_flag None s) opening (window (Some on)) (with_flag on (Some result.was) s) }
    {
        let was = settings.switch(true);
        Window { settings, was }
    }

    // The settings that frames inside the window are served by.
    pub fn settings(&self) -> &Settings
        ensures value { result.now ≡ self.now.settings.now }
    {
        self.settings
    }

    // The write flag before the window, which its end puts back.
    pub fn was(&self) -> bool
        ensures { result ≡ self.now.was }
    {
        self.was
    }
}

impl Drop for Window<'_> {
    fn drop(self)
        ensures back { self.exit.0.now.write_flag ≡ self.entry.was }
        ensures carries { (s : State) →
            let back = self.exit.0.now.write_flag in
            CarriesOn (with_flag self.entry.settings.now.write_flag (Some self.entry.was) s) ending (window (Some back)) (with_flag back None s) }
    {
        let Window { settings, was } = self;
        settings.write_flag = was;
    }
}
