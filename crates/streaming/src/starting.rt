// The start of the monitor with a header's word.
ghost use Rattle.std.specs.Prelude.{◌≡◌};
ghost use Rattle.streaming.specs.Monitor.{idle_of, started};
ghost use Rattle.streaming.specs.Meanings.{Starts, RefusesAll};

use super::Monitor;
use letters::Header;
use letters::reasons::Reason;
use letters::words::decode_header;
use window::Window;

impl Monitor {
    /// The monitor that stands for a refused start: a stopped monitor without registers, which refuses every letter by 4.
    pub fn idle() -> Monitor
        ensures value { result ≡ idle_of }
        ensures refuses { RefusesAll result }
    {
        Monitor {
            header: Header {
                registers: 0,
                functions: 0,
                binary: 0,
            },
            window: Window::fresh(0),
            running: false,
        }
    }

    /// Starts a monitor with the word of a header, or refuses it by 3.
    pub fn start(word: u16) -> Result<Monitor, Reason>
        ensures { Starts word (started result) }
    {
        let Some(header) = decode_header(word) else {
            return Err(Reason::HeaderMalformed);
        };
        Ok(Monitor {
            header,
            window: Window::fresh(header.registers),
            running: true,
        })
    }
}
