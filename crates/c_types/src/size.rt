ghost use Rattle.std.specs.Prelude.{◌≡◌, ◌<◌, ◌≤◌, ◌*◌, Some, None, IsNone, IfSome, ◌↔◌, unwrap_or};
ghost use Rattle.c_types.specs.Sizes.{cells_times, bytes_times};

/// How large an object of a type is.
#[derive(Clone, Copy, Debug, PartialEq, Eq, Hash)]
pub struct Size {
    pub cells: u32,
    /// What `sizeof` gives (C11 6.5.3.4).
    pub bytes: u32,
}

/// The most cells of an object.
const MOST_CELLS: u64 = 65535;

impl Size {
    /// The size of an array of objects of this size, or `None` where it has more than 65,535 cells. Without a length
    /// it is 0.
    pub(crate) fn times(self, length: Option<u32>) -> Option<Size>
        requires { self.bytes ≤ 4 * self.cells }
        ensures large { IsNone result ↔ (65535 < cells_times self.cells length) }
        ensures cells { IfSome result (λ size. size.cells ≡ cells_times self.cells length) }
        ensures bytes { IfSome result (λ size. size.bytes ≡ bytes_times self.bytes length) }
    {
        let Some(length) = length else {
            return Some(Size { cells: 0, bytes: 0 });
        };
        let cells = u64::from(length) * u64::from(self.cells);
        if cells > MOST_CELLS {
            return None;
        }
        let bytes = u64::from(length) * u64::from(self.bytes);
        Some(Size {
            cells: cells as u32,
            bytes: bytes as u32,
        })
    }
}
