use updater_text::Text;
use wire_value::Value;

/// A message (D-Bus specification, "Message Format"). `little` says whether its numbers have their
/// lowest byte first. A field that its header leaves out is None; the signature of no body is
/// empty. `fds` tells how many descriptors come with it.
#[derive(Drop)]
pub struct Message {
    pub little: bool,
    pub kind: u8,
    pub flags: u8,
    pub serial: u32,
    pub path: Option<Text>,
    pub interface: Option<Text>,
    pub member: Option<Text>,
    pub error_name: Option<Text>,
    pub reply_serial: Option<u32>,
    pub destination: Option<Text>,
    pub sender: Option<Text>,
    pub signature: Text,
    pub fds: Option<u32>,
    pub body: Vec<Value>,
}
