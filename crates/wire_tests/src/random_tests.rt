use crate::again::{comes_back, write_all};
use std::alloc::Global;
use std::test::Fail;
use updater_text::Text;
use wire_value::{Value, signature_of};

// Numbers that look like chance (xorshift), the same in each run.
#[derive(Drop)]
struct Numbers {
    state: u64,
}

impl Numbers {
    fn next(&mut self) -> u64 {
        self.state ^= self.state << 13;
        self.state ^= self.state >> 7;
        self.state ^= self.state << 17;
        self.state
    }
}

fn text_value(alloc: Global, numbers: &mut Numbers) -> Result<Value, Fail> {
    match numbers.next() % 5 {
        0 => Ok(Value::Str(Text::empty(alloc))),
        1 => Ok(Value::Str(Text::new(alloc, "caf\u{e9}")?)),
        2 => Ok(Value::Path(Text::new(alloc, "/")?)),
        3 => Ok(Value::Path(Text::new(alloc, "/de/pengutronix/rauc")?)),
        _ => Ok(Value::Sig(Text::new(alloc, "a{s(iv)}")?)),
    }
}

fn basic_value(alloc: Global, numbers: &mut Numbers) -> Result<Value, Fail> {
    let number = numbers.next();
    match numbers.next() % 11 {
        0 => Ok(Value::Byte((number % 256) as u8)),
        1 => Ok(Value::Flag(number % 2 == 1)),
        2 => Ok(Value::I16(((number % 65_536) as u16).cast_signed())),
        3 => Ok(Value::U16((number % 65_536) as u16)),
        4 => Ok(Value::I32(((number % 4_294_967_296) as u32).cast_signed())),
        5 => Ok(Value::U32((number % 4_294_967_296) as u32)),
        6 => Ok(Value::I64(number.cast_signed())),
        7 => Ok(Value::U64(number)),
        8 => Ok(Value::Double(number.to_be_bytes())),
        9 => Ok(Value::Fd((number % 16) as u32)),
        _ => text_value(alloc, numbers),
    }
}

fn variant_value(alloc: Global, numbers: &mut Numbers) -> Result<Value, Fail> {
    let inner = basic_value(alloc, numbers)?;
    Ok(Value::Variant(Box::new(alloc, inner)?))
}

fn struct_value(alloc: Global, numbers: &mut Numbers) -> Result<Value, Fail> {
    let mut fields = Vec::new(alloc);
    fields.push(basic_value(alloc, numbers)?)?;
    fields.push(variant_value(alloc, numbers)?)?;
    fields.push(basic_value(alloc, numbers)?)?;
    Ok(Value::Struct(fields))
}

fn dict_value(alloc: Global, numbers: &mut Numbers) -> Result<Value, Fail> {
    let mut items = Vec::new(alloc);
    for _ in 0..numbers.next() % 4 {
        let key = Value::U16((numbers.next() % 65_536) as u16);
        let value = variant_value(alloc, numbers)?;
        let key = Box::new(alloc, key)?;
        let value = Box::new(alloc, value)?;
        items.push(Value::Pair { key, value })?;
    }
    let item = Text::new(alloc, "{qv}")?;
    Ok(Value::Array { item, items })
}

fn array_value(alloc: Global, numbers: &mut Numbers) -> Result<Value, Fail> {
    let mut items = Vec::new(alloc);
    for _ in 0..numbers.next() % 4 {
        items.push(dict_value(alloc, numbers)?)?;
    }
    let item = Text::new(alloc, "a{qv}")?;
    Ok(Value::Array { item, items })
}

fn values_of(alloc: Global, numbers: &mut Numbers) -> Result<Vec<Value>, Fail> {
    let mut values = Vec::new(alloc);
    for _ in 0..4 {
        let value = match numbers.next() % 5 {
            0 => basic_value(alloc, numbers)?,
            1 => variant_value(alloc, numbers)?,
            2 => struct_value(alloc, numbers)?,
            3 => dict_value(alloc, numbers)?,
            _ => array_value(alloc, numbers)?,
        };
        values.push(value)?;
    }
    Ok(values)
}

// Whether values are written, and read back as what is written as the same bytes.
fn reads_back(alloc: Global, numbers: &mut Numbers, little: bool) -> Result<bool, Fail> {
    let values = values_of(alloc, numbers)?;
    let signature = signature_of(alloc, &values)?;
    let Some(bytes) = write_all(alloc, &signature, little, &values)? else {
        return Ok(false);
    };
    let (same, _) = comes_back(alloc, &signature, little, &bytes)?;
    Ok(same)
}

#[test]
fn written_values_read_back(rt: HostRuntime) -> Result<(), Fail> {
    let mut numbers = Numbers {
        state: 88_172_645_463_325_252,
    };
    let mut all = true;
    for count in 0..500 {
        all = all && reads_back(rt.alloc(), &mut numbers, count % 2 == 0)?;
    }
    assert!(rt; all);
    Ok(())
}
