ghost use Rattle.std.specs.Prelude.{◌≡◌, option_map};

use updater_text::Text;

/// What is to be installed.
#[derive(Drop)]
pub struct Request {
    /// The path of the bundle.
    pub bundle: Text,
    /// The name that counts as booted, where one is given.
    pub given_boot: Option<Text>,
    /// A bundle for another system is taken too, unless a hook of it decides.
    pub ignore_compatible: bool,
}

impl Request {
    /// The name that counts as booted, where one is given.
    pub fn given(&self) -> Option<&str>
        ensures { option_map (λ name. name.now) result ≡ self.now.given_boot }
    {
        match &self.given_boot {
            Some(name) => Some(name.as_str()),
            None => None,
        }
    }
}
