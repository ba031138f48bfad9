// A store over a retentive image.
#![tactic(auto)]

mod image;

pub use image::Image;
