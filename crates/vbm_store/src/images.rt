//! The images of a store.

ghost use Rattle.std.specs.Prelude.{◌≡◌, ◌+◌, ◌≤◌, length, [], ◌∷◌, ◌++◌, OnOk, OnErr, vec_len, vec_capacity};
ghost use Rattle.vbm_named.specs.Names.{put_by, without};
ghost use Rattle.vbm_named.specs.Places.{place_for};
ghost use Rattle.vbm_image.specs.Image.{image_name};
ghost use Rattle.vbm_store.specs.Edits.{HasRoom, edited};

use std::alloc::Global;
use std::marker::Model;
use vbm_image::Image;
use vbm_named::names::{is_before, is_same};
use vbm_ports::{Names, NoMemory, Text};

/// Images, those of the media first, in the order of their names.
#[derive(Drop)]
pub struct Images {
    items: vbm_image::Images,
}

impl Model for Images {
    ghost use Rattle.std.specs.Prelude.{List};
    ghost use Rattle.vbm_image.specs.declared.image.Image.{Image};

    ghost Value = { List Image };

    ghost view = { λ images. images.items.items };
}

impl Images {
    /// No images.
    pub fn new(alloc: Global) -> Images
        ensures { result ≡ [] }
    {
        Images {
            items: vbm_image::Images::new(alloc),
        }
    }

    /// Appends an image, or changes nothing.
    pub fn push(&mut self, image: Image) -> Result<(), NoMemory>
        ensures ok { OnOk result (self.new ≡ self.old ++ image ∷ []) }
        ensures err { OnErr result (self.new ≡ self.old) }
    {
        self.items.push(image)
    }

    /// The images as a vector, whose room is known.
    pub(crate) fn into_vec(self) -> Vec<Image>
        ensures { result.items ≡ self }
    {
        self.items.into_vec()
    }

    pub(crate) fn from_vec(items: Vec<Image>) -> Images
        ensures { result ≡ items.items }
    {
        Images {
            items: vbm_image::Images::from_vec(items),
        }
    }

    /// Lends all images.
    pub fn as_slice(&self) -> &[Image]
        ensures { result.now ≡ self.now }
    {
        self.items.as_slice()
    }

    /// Lends the images as a list with room.
    pub fn as_roomed(&self) -> &vbm_image::Images
        ensures { result.now.items ≡ self.now }
    {
        &self.items
    }

    /// The images as a list with room.
    pub fn into_roomed(self) -> vbm_image::Images
        ensures { result.items ≡ self }
    {
        self.items
    }

    /// The images of a list with room.
    pub fn of_roomed(items: vbm_image::Images) -> Images
        ensures { result ≡ items.items }
    {
        Images { items }
    }
}

/// A change of the images that a store holds.
#[derive(Drop)]
pub enum Edit {
    /// They stay.
    Keep,
    /// They stay, and the media of these names have not changed since a start.
    Unchanged(Names),
    /// One more comes, in its place.
    Put(Image),
    /// That of this name goes.
    Remove(Text),
}

/// Makes room for what an edit brings.
pub(crate) fn reserve(images: &mut Vec<Image>, edit: &Edit) -> Result<(), NoMemory>
    ensures items { images.new.items ≡ images.old.items }
    ensures room { OnOk result (HasRoom edit.now (vec_len images.new) (vec_capacity images.new)) }
{
    match edit {
        Edit::Put(_) => match images.reserve(1) {
            Ok(()) => Ok(()),
            Err(_) => Err(NoMemory),
        },
        Edit::Keep | Edit::Unchanged(_) | Edit::Remove(_) => Ok(()),
    }
}

/// Edits the images. It takes no memory.
pub(crate) fn apply(images: &mut Vec<Image>, edit: Edit)
    requires { HasRoom edit (vec_len images.old) (vec_capacity images.old) }
    ensures { images.new.items ≡ edited edit images.old.items }
{
    match edit {
        Edit::Keep | Edit::Unchanged(_) => {}
        Edit::Put(image) => put(images, image),
        Edit::Remove(name) => remove(images, name.bytes()),
    }
}

// Puts an image in its place, where there is room.
fn put(images: &mut Vec<Image>, image: Image)
    requires { vec_len images.old + 1 ≤ vec_capacity images.old }
    ensures { images.new.items ≡ put_by image_name image images.old.items }
{
    let at = place_of(images.as_slice(), image.name.bytes());
    let _ = images.insert(at, image);
}

// The place where an image of this name comes in.
fn place_of(images: &[Image], name: &[u8]) -> usize
    ensures place { result ≡ place_for image_name name.now images.now }
    ensures within { result ≤ length images.now }
{
    for (i, image) in images.iter().enumerate() {
        if is_before(name, image.name.bytes()) {
            return i;
        }
    }
    images.len()
}

// Removes the image of a name.
fn remove(images: &mut Vec<Image>, name: &[u8])
    ensures { images.new.items ≡ without image_name name.now images.old.items }
{
    images.retain(|image| !is_same(image.name.bytes(), name));
}
