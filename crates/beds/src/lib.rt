//! What the programs stand a tree or a journal on: devices of one of two kinds, over a lent row, with a cut appointed or none.
#![tactic(auto)]

ghost use Rattle.std.specs.Prelude.{◌≡◌};
ghost use Rattle.beds.specs.Kinds.{by_kind, sized_by_kind};
ghost use Rattle.beds.specs.Laid.{LaidImage, Laid};
ghost use Rattle.beds.specs.Reads.{slot_in};

use device::{DeviceFault, ReadSlots, SLOT_SIZE, TearSlots, WriteSlots};
use image::ByteImage;
use journal::Journal;
use memory::Memory;
use row::Cut;
use sectors::SectorImage;

// An enum of our own, and not that of the library's crate `either`: only crate device could give its traits to that one, and would stand on
// it for these programs alone. No `dyn`: `lay` hands it out, which the gate refuses.

/// A device of one of two kinds. Each call is the same call of the one that it is.
#[derive(Drop)]
pub enum Either<A, B> {
    First(A),
    Second(B),
}

impl<A: ReadSlots, B: ReadSlots> ReadSlots for Either<A, B> {
    ghost state = { by_kind A.state B.state };

    ghost sized = { λ d k h. sized_by_kind A.state B.state A.sized B.sized d k h };

    fn count(&self) -> usize {
        match self {
            Either::First(device) => device.count(),
            Either::Second(device) => device.count(),
        }
    }

    fn read(&self, index: usize, out: &mut [u8; SLOT_SIZE]) -> Result<(), DeviceFault> {
        match self {
            Either::First(device) => device.read(index, out),
            Either::Second(device) => device.read(index, out),
        }
    }
}

impl<A: TearSlots, B: TearSlots> TearSlots for Either<A, B> {
    fn write(&mut self, index: usize, bytes: &[u8; SLOT_SIZE]) -> Result<(), DeviceFault> {
        match self {
            Either::First(image) => image.write(index, bytes),
            Either::Second(image) => image.write(index, bytes),
        }
    }

    fn restart(&mut self) -> Result<(), DeviceFault> {
        match self {
            Either::First(image) => image.restart(),
            Either::Second(image) => image.restart(),
        }
    }
}

impl<A: WriteSlots, B: WriteSlots> WriteSlots for Either<A, B> {
    fn write(&mut self, index: usize, bytes: &[u8; SLOT_SIZE]) -> Result<(), DeviceFault> {
        match self {
            Either::First(whole) => whole.write(index, bytes),
            Either::Second(whole) => whole.write(index, bytes),
        }
    }

    fn restart(&mut self) -> Result<(), DeviceFault> {
        match self {
            Either::First(whole) => whole.restart(),
            Either::Second(whole) => whole.restart(),
        }
    }
}

/// An image whose writes can tear.
pub type Image<'a> = Either<ByteImage<'a>, SectorImage<'a>>;

/// A device of whole writes.
pub type Bed<'a> = Either<Journal<Image<'a>>, Memory<'a>>;

/// The kinds of image.
#[derive(Clone, Copy, PartialEq, Eq, Debug)]
pub enum Medium {
    Bytes,
    Sectors,
}

impl Medium {
    // The cut is appointed here twice, and once more below: the devices share no trait for that, and one would serve these lines alone.
    /// An image over a lent row, with its power on.
    pub fn lay<'a>(self, row: &'a mut [u8], cut: Option<Cut>) -> Image<'a>
        ensures { LaidImage self row.old cut result }
    {
        match self {
            Medium::Bytes => {
                let mut bytes = ByteImage::new(row);
                if let Some(cut) = cut {
                    bytes.appoint(cut);
                }
                Either::First(bytes)
            }
            Medium::Sectors => {
                let mut sectors = SectorImage::new(row);
                if let Some(cut) = cut {
                    sectors.appoint(cut);
                }
                Either::Second(sectors)
            }
        }
    }
}

/// The kinds of devices of whole writes: a journal over an image, and memory.
#[derive(Clone, Copy, PartialEq, Eq, Debug)]
pub enum Base {
    Journaled(Medium),
    Whole,
}

impl Base {
    /// A device over a lent row, with its power on.
    pub fn lay<'a>(self, row: &'a mut [u8], cut: Option<Cut>) -> Bed<'a>
        ensures { Laid self row.old cut result }
    {
        match self {
            Base::Journaled(medium) => Either::First(Journal::new(medium.lay(row, cut))),
            Base::Whole => {
                let mut memory = Memory::new(row);
                if let Some(cut) = cut {
                    memory.appoint(cut);
                }
                Either::Second(memory)
            }
        }
    }
}

/// What a slot holds; none where it cannot be read.
pub fn slot_at<D: ReadSlots>(device: &D, index: usize) -> Option<[u8; SLOT_SIZE]>
    ensures { result ≡ slot_in (D.state device.now) index }
{
    let mut slot = [0; SLOT_SIZE];
    device.read(index, &mut slot).ok()?;
    Some(slot)
}
