//! Lists of images.

ghost use Rattle.std.specs.Prelude.{◌≡◌, ◌+◌, ◌<◌, ◌≤◌, [], ◌∷◌, ◌++◌, length, slice_get, Some, OnOk, OnErr, vec_len, vec_capacity};

use crate::image::Image;
use std::alloc::Global;
use std::marker::Model;
use vbm_ports::NoMemory;

/// Images in an order, with room for more.
#[derive(Drop)]
pub struct Images {
    items: Vec<Image>,
}

impl Model for Images {
    ghost use Rattle.std.specs.Prelude.{◌-◌, vec_len, vec_capacity};
    ghost use Rattle.vbm_image.specs.Images.{ImagesState};

    ghost Value = { ImagesState };

    ghost view = { λ images. record { items = images.items.items; spare = vec_capacity images.items - vec_len images.items } };
}

impl Images {
    ghost use Rattle.std.specs.Borrow.{sem};
    ghost use Rattle.vbm_image.specs.Lending.{LendsImage};

    /// No images. It takes no memory.
    pub fn new(alloc: Global) -> Images
        ensures { result.items ≡ [] }
    {
        Images {
            items: Vec::new(alloc),
        }
    }

    /// How many images there are.
    pub fn len(&self) -> usize
        ensures { result ≡ length self.now.items }
    {
        self.items.len()
    }

    /// Lends the image at a place.
    pub fn get(&self, i: usize) -> &Image
        requires { i < length self.now.items }
        ensures { slice_get self.now.items i ≡ Some result.now }
    {
        &self.items[i]
    }

    /// Lends the image at a place, to be edited there.
    pub fn get_mut(&mut self, i: usize) -> &mut Image
        requires { i < length self.old.items }
        ensures* edits { sem 𝓛 (LendsImage self.entry i result) }
        ensures value { slice_get self.old.items i ≡ Some result.now }
    {
        &mut self.items[i]
    }

    /// Lends all images.
    pub fn as_slice(&self) -> &[Image]
        ensures { result.now ≡ self.now.items }
    {
        self.items.as_slice()
    }

    /// Makes room for n more images, or changes nothing.
    pub fn reserve(&mut self, n: u32) -> Result<(), NoMemory>
        ensures ok { OnOk result (n ≤ self.new.spare) }
        ensures same { self.new.items ≡ self.old.items }
        ensures spare { self.old.spare ≤ self.new.spare }
    {
        match self.items.reserve(n as usize) {
            Ok(()) => Ok(()),
            Err(_) => Err(NoMemory),
        }
    }

    /// Appends an image, or changes nothing. It can't fail where there is room.
    pub fn push(&mut self, image: Image) -> Result<(), NoMemory>
        ensures ok { OnOk result (self.new.items ≡ self.old.items ++ image ∷ []) }
        ensures err { OnErr result (self.new.items ≡ self.old.items) }
        ensures full { OnErr result (self.old.spare ≡ 0) }
        ensures spare { self.old.spare ≤ self.new.spare + 1 }
    {
        match self.items.push(image) {
            Ok(()) => Ok(()),
            Err(_) => Err(NoMemory),
        }
    }

    /// The images as a vector, with their room.
    pub fn into_vec(self) -> Vec<Image>
        ensures items { result.items ≡ self.items }
        ensures room { vec_len result + self.spare ≡ vec_capacity result }
    {
        self.items
    }

    /// The images of a vector, with its room.
    pub fn from_vec(items: Vec<Image>) -> Images
        ensures items { result.items ≡ items.items }
        ensures room { vec_len items + result.spare ≡ vec_capacity items }
    {
        Images { items }
    }
}
