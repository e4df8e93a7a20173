ghost use Rattle.std.specs.Prelude.{◌≡◌, ◌*◌, ◌≤◌};
ghost use Rattle.trace_file.specs.Layout.{most_width, file_bytes, following};

use crate::head::Head;
use crate::layout;

// A version of the file: its byte, and how many numbers a point has in it, so few that no product is too large.
#[derive(Clone, Copy)]
pub(crate) struct Format {
    pub(crate) version: u8,
    pub(crate) width: usize,
    ghost few: { width ≤ most_width },
}

impl Format {
    pub(crate) const VERSION_1: Format = Format {
        version: 1,
        width: 7,
    };

    // How many numbers the file has.
    pub(crate) fn numbers(self, head: Head) -> usize
        ensures { result ≡ self.width * head.count }
    {
        self.width * usize::from(head.count)
    }

    // How many bytes the file has.
    pub(crate) fn file_bytes(self, head: Head) -> usize
        ensures { result ≡ file_bytes self.width head.count }
    {
        layout::NUMBERS + 8 * self.numbers(head)
    }

    // What its length says.
    pub(crate) fn following(self, head: Head) -> u32
        ensures { result ≡ following self.width head.count }
    {
        (self.file_bytes(head) - layout::VERSION) as u32
    }
}
