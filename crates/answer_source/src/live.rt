// A source over devices.
ghost use Rattle.std.specs.Prelude.{◌≡◌, [], IsTrue};
ghost use Rattle.answer_source.specs.Live.{IsCaptureOf, AreNumbered, AreFetched, Seen, has_file, telling, capture_of};

use crate::Source;
use capture::{Ask, Capture, Given};
use prov_base::{Memory, Pos};
use prov_outside::{ClockAndRandom, Console, Folder, Found};
use std::alloc::Global;

/// The devices of a run: its console, its folder, and its clock with random words.
#[derive(Drop)]
pub struct Devices<C: Console, F: Folder, M: ClockAndRandom> {
    /// Lines that come in, and bytes that go out.
    pub console: C,
    /// Files by path.
    pub folder: F,
    /// A clock, and random words.
    pub moments: M,
}

/// What exposes what it holds, and how often each of its calls has failed.
pub trait Exposes {
    /// What is seen of it.
    ghost seen: { Self → Seen };
}

impl<C: Console, F: Folder, M: ClockAndRandom> Exposes for Devices<C, F, M> {
    ghost seen = { λ devices. record {
      console = C.told devices.console;
      folder = F.told devices.folder;
      moments = M.told devices.moments;
      faults = record {
        line = C.in_faults devices.console;
        write = C.out_faults devices.console;
        file = F.get_faults devices.folder;
        source = F.source_faults devices.folder;
        put = F.put_faults devices.folder;
        time = M.time_faults devices.moments;
        word = M.word_faults devices.moments;
      };
    } };
}

/// The devices of a run, and the capture of what they gave so far. It owns its devices, and [`Live::finish`] gives them back.
#[derive(Drop)]
pub struct Live<C: Console, F: Folder, M: ClockAndRandom> {
    capture: Capture,
    devices: Devices<C, F, M>,
    ghost unwritten: { capture.written ≡ [] },
}

impl<C: Console + Drop, F: Folder + Drop, M: ClockAndRandom + Drop> Live<C, F, M> {
    /// A source over devices, whose capture notes no path as written.
    pub fn new(capture: Capture, devices: Devices<C, F, M>) -> Live<C, F, M>
        requires { capture.written ≡ [] }
        ensures kept { result.capture ≡ capture }
        ensures devices { result.devices ≡ devices }
    {
        Live { capture, devices }
    }

    /// The capture of what was given, and the devices. It fits at the end of the run, and what its devices tell then is what they tell at its end.
    pub fn finish(self) -> (Capture, Devices<C, F, M>)
        ensures kept { result.0 ≡ self.capture }
        ensures devices { result.1 ≡ self.devices }
        ensures fits { let now = telling (C.told result.1.console) (F.told result.1.folder) (M.told result.1.moments) (record {
          line = C.in_faults result.1.console;
          write = C.out_faults result.1.console;
          file = F.get_faults result.1.folder;
          source = F.source_faults result.1.folder;
          put = F.put_faults result.1.folder;
          time = M.time_faults result.1.moments;
          word = M.word_faults result.1.moments;
        }) in IsCaptureOf self.capture now (capture_of result.0 now) }
    {
        let _ = self.capture.files();
        (self.capture, self.devices)
    }
}

impl<C: Console + Drop, F: Folder + Drop, M: ClockAndRandom + Drop> Source for Live<C, F, M> {
    ghost fits = { λ s held. IsCaptureOf s.capture (telling (C.told s.devices.console) (F.told s.devices.folder) (M.told s.devices.moments) (record {
      line = C.in_faults s.devices.console;
      write = C.out_faults s.devices.console;
      file = F.get_faults s.devices.folder;
      source = F.source_faults s.devices.folder;
      put = F.put_faults s.devices.folder;
      time = M.time_faults s.devices.moments;
      word = M.word_faults s.devices.moments;
    })) held };

    ghost stands = { λ s askings fetches. AreNumbered s.capture askings × AreFetched s.capture fetches };

    fn some_fits(&self) {
        let _ = self.capture.files();
    }

    fn paths_once(&self) {}

    fn ask(&mut self, alloc: Global, what: Ask, at: Pos) -> Result<Option<Given>, Memory> {
        let k = self.capture.ask_live(
            alloc,
            what,
            at,
            &mut self.devices.console,
            &mut self.devices.moments,
        )?;
        self.capture.copy_kept(alloc, what, at, k)
    }

    ghost has = { λ s path. IsTrue (has_file s.capture path) };

    fn fetch(&mut self, alloc: Global, path: &str) -> Result<(), Memory> {
        let folder = &mut self.devices.folder;
        self.capture.touch_live(alloc, path, folder)
    }

    fn found(&self, path: &str) -> Option<&Found> {
        match self.capture.touch_kept(path) {
            Ok(found) => Some(found),
            Err(_) => None,
        }
    }
}
