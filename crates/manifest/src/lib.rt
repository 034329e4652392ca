//! The manifest of a bundle: what it is for, and which images it has.
#![tactic(auto)]

mod bundle;
mod bundle_text;
mod cause;
mod content;
mod copies;
mod file_names;
mod image;
mod image_groups;
mod images;
mod key_table;
mod keys;
mod mandatory;
mod reading;
mod refusal;

pub use bundle_text::BundleText;
pub use cause::manifest_cause;
pub use content::Manifest;
pub use image::{Image, ImageFile};
pub use reading::read_manifest;
pub use refusal::ManifestRefusal;
