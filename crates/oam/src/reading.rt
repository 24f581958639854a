// The entries that read a frame. What they show is stored as numbers in slices that the caller lends.
ghost use Rattle.std.specs.Prelude.{length};
ghost use Rattle.oam_showing.specs.Showing.{Showing};
ghost use Rattle.oam_showing.specs.Reading.{frame_shown, all_shown, ShowingAll};
ghost use Rattle.oam_showing.specs.Asking.{descriptors_shown};

// Reads a frame (`oam_showing::read`).
pub fn oam_read(frame: &[u8], header: &mut [u64]) -> u64
    ensures { Showing (frame_shown frame.now (length header.old)) header.old result header.new }
{
    oam_showing::read(frame, header)
}

// Reads a frame with its parts (`oam_showing::read_all`).
pub fn oam_read_all(frame: &[u8], first: usize, header: &mut [u64], rows: &mut [u64]) -> u64
    ensures { ShowingAll (all_shown frame.now first (length header.old) (length rows.old)) header.old rows.old result header.new rows.new }
{
    oam_showing::read_all(frame, first, header, rows)
}

// Reads all descriptors of a Variable Request (`oam_showing::read_descriptors`).
pub fn oam_descriptors(frame: &[u8], descriptors: &mut [u32]) -> u64
    ensures { Showing (descriptors_shown frame.now (length descriptors.old)) descriptors.old result descriptors.new }
{
    oam_showing::read_descriptors(frame, descriptors)
}
