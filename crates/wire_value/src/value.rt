use updater_text::Text;

/// A value of a message (D-Bus specification, "Type System"). A double is kept as its bytes, the
/// lowest first, and never computed with; `item` is the signature of an array's items.
#[derive(Drop)]
pub enum Value {
    Byte(u8),
    Flag(bool),
    I16(i16),
    U16(u16),
    I32(i32),
    U32(u32),
    I64(i64),
    U64(u64),
    Double([u8; 8]),
    Str(Text),
    Path(Text),
    Sig(Text),
    Fd(u32),
    Array { item: Text, items: Vec<Value> },
    Struct(Vec<Value>),
    Pair { key: Box<Value>, value: Box<Value> },
    Variant(Box<Value>),
}
