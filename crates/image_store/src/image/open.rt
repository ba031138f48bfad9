// Taking an image into use.
ghost use Rattle.std.specs.Prelude.{◌≡◌, true};
ghost use Rattle.slots.specs.Cuts.{lawful_image};

use crate::image::Image;

impl<'a> Image<'a> {
    // Takes an image without a flaw into use. Nothing is written.
    pub fn open(bytes: &'a mut [u8]) -> Image<'a>
        requires { lawful_image bytes.old ≡ true }
        ensures { result.bytes.now ≡ bytes.old }
    {
        Image { bytes }
    }

    // The bytes of the image.
    pub fn bytes(&self) -> &[u8]
        ensures { result.now ≡ self.now.bytes.now }
    {
        self.bytes
    }
}
