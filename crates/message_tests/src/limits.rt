//! Texts that are no messages, each for one reason, and messages at the limits. `libdbus` 1.14.10 refuses
//! and takes the same.

/// Texts that are no messages.
pub const BAD: [&[u8]; 57] = [
    // The byte order is unknown.
    b"x\x04\x01\x01\0\0\0\0\x01\0\0\0*\0\0\0\x01\x01o\0\x01\0\0\0/\0\0\0\0\0\0\0\x02\x01s\0\
      \x03\0\0\0a.b\0\0\0\0\0\x03\x01s\0\x01\0\0\0C\0\0\0\0\0\0\0",
    // The version of the protocol is 2.
    b"l\x04\x01\x02\0\0\0\0\x01\0\0\0*\0\0\0\x01\x01o\0\x01\0\0\0/\0\0\0\0\0\0\0\x02\x01s\0\
      \x03\0\0\0a.b\0\0\0\0\0\x03\x01s\0\x01\0\0\0C\0\0\0\0\0\0\0",
    // The kind is 0.
    b"l\0\x01\x01\0\0\0\0\x01\0\0\0*\0\0\0\x01\x01o\0\x01\0\0\0/\0\0\0\0\0\0\0\x02\x01s\0\x03\
      \0\0\0a.b\0\0\0\0\0\x03\x01s\0\x01\0\0\0C\0\0\0\0\0\0\0",
    // The serial is 0.
    b"l\x04\x01\x01\0\0\0\0\0\0\0\0*\0\0\0\x01\x01o\0\x01\0\0\0/\0\0\0\0\0\0\0\x02\x01s\0\x03\
      \0\0\0a.b\0\0\0\0\0\x03\x01s\0\x01\0\0\0C\0\0\0\0\0\0\0",
    // A field has the code 0.
    b"l\x04\x01\x01\0\0\0\0\x01\0\0\0:\0\0\0\x01\x01o\0\x01\0\0\0/\0\0\0\0\0\0\0\x02\x01s\0\
      \x03\0\0\0a.b\0\0\0\0\0\x03\x01s\0\x01\0\0\0C\0\0\0\0\0\0\0\0\x01s\0\x01\0\0\0x\0\0\0\0\
      \0\0\0",
    // A path is a string.
    b"l\x04\x01\x01\0\0\0\0\x01\0\0\0*\0\0\0\x01\x01s\0\x01\0\0\0/\0\0\0\0\0\0\0\x02\x01s\0\
      \x03\0\0\0a.b\0\0\0\0\0\x03\x01s\0\x01\0\0\0C\0\0\0\0\0\0\0",
    // A member stands twice.
    b"l\x04\x01\x01\0\0\0\0\x01\0\0\0:\0\0\0\x01\x01o\0\x01\0\0\0/\0\0\0\0\0\0\0\x02\x01s\0\
      \x03\0\0\0a.b\0\0\0\0\0\x03\x01s\0\x01\0\0\0C\0\0\0\0\0\0\0\x03\x01s\0\x01\0\0\0C\0\0\0\
      \0\0\0\0",
    // An interface has one part.
    b"l\x04\x01\x01\0\0\0\0\x01\0\0\0*\0\0\0\x01\x01o\0\x01\0\0\0/\0\0\0\0\0\0\0\x02\x01s\0\
      \x02\0\0\0ab\0\0\0\0\0\0\x03\x01s\0\x01\0\0\0C\0\0\0\0\0\0\0",
    // An interface has an empty part.
    b"l\x04\x01\x01\0\0\0\0\x01\0\0\0*\0\0\0\x01\x01o\0\x01\0\0\0/\0\0\0\0\0\0\0\x02\x01s\0\
      \x04\0\0\0a..b\0\0\0\0\x03\x01s\0\x01\0\0\0C\0\0\0\0\0\0\0",
    // A part of an interface begins with a digit.
    b"l\x04\x01\x01\0\0\0\0\x01\0\0\0*\0\0\0\x01\x01o\0\x01\0\0\0/\0\0\0\0\0\0\0\x02\x01s\0\
      \x04\0\0\0a.1b\0\0\0\0\x03\x01s\0\x01\0\0\0C\0\0\0\0\0\0\0",
    // An interface has 256 bytes.
    b"l\x04\x01\x01\0\0\0\0\x01\0\0\0*\x01\0\0\x01\x01o\0\x01\0\0\0/\0\0\0\0\0\0\0\x02\x01s\0\
      \0\x01\0\0a.bbbbbbbbbbbbbbbbbbbbbbbbbbbbbbbbbbbbbbbbbbbbbbbbbbbbbbbbbbbbbbbbbbbbbbbbbbbb\
      bbbbbbbbbbbbbbbbbbbbbbbbbbbbbbbbbbbbbbbbbbbbbbbbbbbbbbbbbbbbbbbbbbbbbbbbbbbbbbbbbbbbbbbb\
      bbbbbbbbbbbbbbbbbbbbbbbbbbbbbbbbbbbbbbbbbbbbbbbbbbbbbbbbbbbbbbbbbbbbbbbbbbbbbbbbbbbbbbbb\
      bb\0\0\0\0\0\0\0\0\x03\x01s\0\x01\0\0\0C\0\0\0\0\0\0\0",
    // A member has a dot.
    b"l\x04\x01\x01\0\0\0\0\x01\0\0\0,\0\0\0\x01\x01o\0\x01\0\0\0/\0\0\0\0\0\0\0\x02\x01s\0\
      \x03\0\0\0a.b\0\0\0\0\0\x03\x01s\0\x03\0\0\0C.D\0\0\0\0\0",
    // A member is empty.
    b"l\x04\x01\x01\0\0\0\0\x01\0\0\0)\0\0\0\x01\x01o\0\x01\0\0\0/\0\0\0\0\0\0\0\x02\x01s\0\
      \x03\0\0\0a.b\0\0\0\0\0\x03\x01s\0\0\0\0\0\0\0\0\0\0\0\0\0",
    // A member begins with a digit.
    b"l\x04\x01\x01\0\0\0\0\x01\0\0\0+\0\0\0\x01\x01o\0\x01\0\0\0/\0\0\0\0\0\0\0\x02\x01s\0\
      \x03\0\0\0a.b\0\0\0\0\0\x03\x01s\0\x02\0\0\01C\0\0\0\0\0\0",
    // A member has 256 bytes.
    b"l\x04\x01\x01\0\0\0\0\x01\0\0\0)\x01\0\0\x01\x01o\0\x01\0\0\0/\0\0\0\0\0\0\0\x02\x01s\0\
      \x03\0\0\0a.b\0\0\0\0\0\x03\x01s\0\0\x01\0\0CCCCCCCCCCCCCCCCCCCCCCCCCCCCCCCCCCCCCCCCCCCC\
      CCCCCCCCCCCCCCCCCCCCCCCCCCCCCCCCCCCCCCCCCCCCCCCCCCCCCCCCCCCCCCCCCCCCCCCCCCCCCCCCCCCCCCCC\
      CCCCCCCCCCCCCCCCCCCCCCCCCCCCCCCCCCCCCCCCCCCCCCCCCCCCCCCCCCCCCCCCCCCCCCCCCCCCCCCCCCCCCCCC\
      CCCCCCCCCCCCCCCCCCCCCCCCCCCCCCCCCCCC\0\0\0\0\0\0\0\0",
    // An error's name has one part.
    b"l\x03\x01\x01\0\0\0\0\x01\0\0\0\x18\0\0\0\x04\x01s\0\x06\0\0\0failed\0\0\x05\x01u\0\x01\
      \0\0\0",
    // A path is empty.
    b"l\x04\x01\x01\0\0\0\0\x01\0\0\0*\0\0\0\x01\x01o\0\0\0\0\0\0\0\0\0\0\0\0\0\x02\x01s\0\x03\
      \0\0\0a.b\0\0\0\0\0\x03\x01s\0\x01\0\0\0C\0\0\0\0\0\0\0",
    // A path does not begin with a slash.
    b"l\x04\x01\x01\0\0\0\0\x01\0\0\0*\0\0\0\x01\x01o\0\x01\0\0\0a\0\0\0\0\0\0\0\x02\x01s\0\
      \x03\0\0\0a.b\0\0\0\0\0\x03\x01s\0\x01\0\0\0C\0\0\0\0\0\0\0",
    // A path ends with a slash.
    b"l\x04\x01\x01\0\0\0\0\x01\0\0\0*\0\0\0\x01\x01o\0\x03\0\0\0/a/\0\0\0\0\0\x02\x01s\0\x03\
      \0\0\0a.b\0\0\0\0\0\x03\x01s\0\x01\0\0\0C\0\0\0\0\0\0\0",
    // A path has a minus.
    b"l\x04\x01\x01\0\0\0\0\x01\0\0\0*\0\0\0\x01\x01o\0\x02\0\0\0/-\0\0\0\0\0\0\x02\x01s\0\x03\
      \0\0\0a.b\0\0\0\0\0\x03\x01s\0\x01\0\0\0C\0\0\0\0\0\0\0",
    // A reply is to the serial 0.
    b"l\x02\x01\x01\0\0\0\0\x01\0\0\0\x08\0\0\0\x05\x01u\0\0\0\0\0",
    // A call has no path.
    b"l\x01\x01\x01\0\0\0\0\x01\0\0\0\x0a\0\0\0\x03\x01s\0\x01\0\0\0C\0\0\0\0\0\0\0",
    // A call has no member.
    b"l\x01\x01\x01\0\0\0\0\x01\0\0\0\x0a\0\0\0\x01\x01o\0\x01\0\0\0/\0\0\0\0\0\0\0",
    // A return has no reply serial.
    b"l\x02\x01\x01\0\0\0\0\x01\0\0\0\0\0\0\0",
    // An error has no name.
    b"l\x03\x01\x01\0\0\0\0\x01\0\0\0\x08\0\0\0\x05\x01u\0\x01\0\0\0",
    // An error has no reply serial.
    b"l\x03\x01\x01\0\0\0\0\x01\0\0\0\x0c\0\0\0\x04\x01s\0\x03\0\0\0a.b\0\0\0\0\0",
    // A signal has no path.
    b"l\x04\x01\x01\0\0\0\0\x01\0\0\0\x1a\0\0\0\x02\x01s\0\x03\0\0\0a.b\0\0\0\0\0\x03\x01s\0\
      \x01\0\0\0C\0\0\0\0\0\0\0",
    // A signal has no interface.
    b"l\x04\x01\x01\0\0\0\0\x01\0\0\0\x1a\0\0\0\x01\x01o\0\x01\0\0\0/\0\0\0\0\0\0\0\x03\x01s\0\
      \x01\0\0\0C\0\0\0\0\0\0\0",
    // A signal has no member.
    b"l\x04\x01\x01\0\0\0\0\x01\0\0\0\x1c\0\0\0\x01\x01o\0\x01\0\0\0/\0\0\0\0\0\0\0\x02\x01s\0\
      \x03\0\0\0a.b\0\0\0\0\0",
    // A body has no signature.
    b"l\x04\x01\x01\x01\0\0\0\x01\0\0\0*\0\0\0\x01\x01o\0\x01\0\0\0/\0\0\0\0\0\0\0\x02\x01s\0\
      \x03\0\0\0a.b\0\0\0\0\0\x03\x01s\0\x01\0\0\0C\0\0\0\0\0\0\0\x01",
    // A signature has no body.
    b"l\x04\x01\x01\0\0\0\0\x01\0\0\07\0\0\0\x01\x01o\0\x01\0\0\0/\0\0\0\0\0\0\0\x02\x01s\0\
      \x03\0\0\0a.b\0\0\0\0\0\x03\x01s\0\x01\0\0\0C\0\0\0\0\0\0\0\x08\x01g\0\x01y\0\0",
    // A body has a byte too many.
    b"l\x04\x01\x01\x02\0\0\0\x01\0\0\07\0\0\0\x01\x01o\0\x01\0\0\0/\0\0\0\0\0\0\0\x02\x01s\0\
      \x03\0\0\0a.b\0\0\0\0\0\x03\x01s\0\x01\0\0\0C\0\0\0\0\0\0\0\x08\x01g\0\x01y\0\0\x01\x02",
    // Padding is not zero.
    b"l\x04\x01\x01\x08\0\0\0\x01\0\0\08\0\0\0\x01\x01o\0\x01\0\0\0/\0\0\0\0\0\0\0\x02\x01s\0\
      \x03\0\0\0a.b\0\0\0\0\0\x03\x01s\0\x01\0\0\0C\0\0\0\0\0\0\0\x08\x01g\0\x02yu\0\x01\0\x01\
      \0\x05\0\0\0",
    // A boolean is 2.
    b"l\x04\x01\x01\x04\0\0\0\x01\0\0\07\0\0\0\x01\x01o\0\x01\0\0\0/\0\0\0\0\0\0\0\x02\x01s\0\
      \x03\0\0\0a.b\0\0\0\0\0\x03\x01s\0\x01\0\0\0C\0\0\0\0\0\0\0\x08\x01g\0\x01b\0\0\x02\0\0\
      \0",
    // A string ends with another byte than 0.
    b"l\x04\x01\x01\x06\0\0\0\x01\0\0\07\0\0\0\x01\x01o\0\x01\0\0\0/\0\0\0\0\0\0\0\x02\x01s\0\
      \x03\0\0\0a.b\0\0\0\0\0\x03\x01s\0\x01\0\0\0C\0\0\0\0\0\0\0\x08\x01g\0\x01s\0\0\x01\0\0\
      \0aa",
    // A string has a byte 0.
    b"l\x04\x01\x01\x08\0\0\0\x01\0\0\07\0\0\0\x01\x01o\0\x01\0\0\0/\0\0\0\0\0\0\0\x02\x01s\0\
      \x03\0\0\0a.b\0\0\0\0\0\x03\x01s\0\x01\0\0\0C\0\0\0\0\0\0\0\x08\x01g\0\x01s\0\0\x03\0\0\
      \0a\0b\0",
    // A string is no UTF-8.
    b"l\x04\x01\x01\x06\0\0\0\x01\0\0\07\0\0\0\x01\x01o\0\x01\0\0\0/\0\0\0\0\0\0\0\x02\x01s\0\
      \x03\0\0\0a.b\0\0\0\0\0\x03\x01s\0\x01\0\0\0C\0\0\0\0\0\0\0\x08\x01g\0\x01s\0\0\x01\0\0\
      \0\xff\0",
    // A string is an overlong form of UTF-8.
    b"l\x04\x01\x01\x07\0\0\0\x01\0\0\07\0\0\0\x01\x01o\0\x01\0\0\0/\0\0\0\0\0\0\0\x02\x01s\0\
      \x03\0\0\0a.b\0\0\0\0\0\x03\x01s\0\x01\0\0\0C\0\0\0\0\0\0\0\x08\x01g\0\x01s\0\0\x02\0\0\
      \0\xc0\x80\0",
    // A string is a surrogate.
    b"l\x04\x01\x01\x08\0\0\0\x01\0\0\07\0\0\0\x01\x01o\0\x01\0\0\0/\0\0\0\0\0\0\0\x02\x01s\0\
      \x03\0\0\0a.b\0\0\0\0\0\x03\x01s\0\x01\0\0\0C\0\0\0\0\0\0\0\x08\x01g\0\x01s\0\0\x03\0\0\
      \0\xed\xa0\x80\0",
    // A string is longer than the body.
    b"l\x04\x01\x01\x06\0\0\0\x01\0\0\07\0\0\0\x01\x01o\0\x01\0\0\0/\0\0\0\0\0\0\0\x02\x01s\0\
      \x03\0\0\0a.b\0\0\0\0\0\x03\x01s\0\x01\0\0\0C\0\0\0\0\0\0\0\x08\x01g\0\x01s\0\0\x09\0\0\
      \0a\0",
    // A signature has an unknown letter.
    b"l\x04\x01\x01\x03\0\0\0\x01\0\0\07\0\0\0\x01\x01o\0\x01\0\0\0/\0\0\0\0\0\0\0\x02\x01s\0\
      \x03\0\0\0a.b\0\0\0\0\0\x03\x01s\0\x01\0\0\0C\0\0\0\0\0\0\0\x08\x01g\0\x01g\0\0\x01z\0",
    // A signature has no byte 0.
    b"l\x04\x01\x01\x03\0\0\0\x01\0\0\07\0\0\0\x01\x01o\0\x01\0\0\0/\0\0\0\0\0\0\0\x02\x01s\0\
      \x03\0\0\0a.b\0\0\0\0\0\x03\x01s\0\x01\0\0\0C\0\0\0\0\0\0\0\x08\x01g\0\x01g\0\0\x01yy",
    // A signature has an empty struct.
    b"l\x04\x01\x01\x04\0\0\0\x01\0\0\07\0\0\0\x01\x01o\0\x01\0\0\0/\0\0\0\0\0\0\0\x02\x01s\0\
      \x03\0\0\0a.b\0\0\0\0\0\x03\x01s\0\x01\0\0\0C\0\0\0\0\0\0\0\x08\x01g\0\x01g\0\0\x02()\0",
    // A signature has an array of nothing.
    b"l\x04\x01\x01\x03\0\0\0\x01\0\0\07\0\0\0\x01\x01o\0\x01\0\0\0/\0\0\0\0\0\0\0\x02\x01s\0\
      \x03\0\0\0a.b\0\0\0\0\0\x03\x01s\0\x01\0\0\0C\0\0\0\0\0\0\0\x08\x01g\0\x01g\0\0\x01a\0",
    // A signature has a struct that does not end.
    b"l\x04\x01\x01\x04\0\0\0\x01\0\0\07\0\0\0\x01\x01o\0\x01\0\0\0/\0\0\0\0\0\0\0\x02\x01s\0\
      \x03\0\0\0a.b\0\0\0\0\0\x03\x01s\0\x01\0\0\0C\0\0\0\0\0\0\0\x08\x01g\0\x01g\0\0\x02(y\0",
    // A dict entry stands outside an array.
    b"l\x04\x01\x01\x06\0\0\0\x01\0\0\07\0\0\0\x01\x01o\0\x01\0\0\0/\0\0\0\0\0\0\0\x02\x01s\0\
      \x03\0\0\0a.b\0\0\0\0\0\x03\x01s\0\x01\0\0\0C\0\0\0\0\0\0\0\x08\x01g\0\x01g\0\0\x04{sy}\
      \0",
    // A dict entry has three values.
    b"l\x04\x01\x01\x08\0\0\0\x01\0\0\07\0\0\0\x01\x01o\0\x01\0\0\0/\0\0\0\0\0\0\0\x02\x01s\0\
      \x03\0\0\0a.b\0\0\0\0\0\x03\x01s\0\x01\0\0\0C\0\0\0\0\0\0\0\x08\x01g\0\x01g\0\0\x06a{syy\
      }\0",
    // A dict entry has a container as its key.
    b"l\x04\x01\x01\x07\0\0\0\x01\0\0\07\0\0\0\x01\x01o\0\x01\0\0\0/\0\0\0\0\0\0\0\x02\x01s\0\
      \x03\0\0\0a.b\0\0\0\0\0\x03\x01s\0\x01\0\0\0C\0\0\0\0\0\0\0\x08\x01g\0\x01g\0\0\x05a{vs}\
      \0",
    // 33 arrays nest in a signature.
    b"l\x04\x01\x01$\0\0\0\x01\0\0\07\0\0\0\x01\x01o\0\x01\0\0\0/\0\0\0\0\0\0\0\x02\x01s\0\x03\
      \0\0\0a.b\0\0\0\0\0\x03\x01s\0\x01\0\0\0C\0\0\0\0\0\0\0\x08\x01g\0\x01g\0\0\x22aaaaaaaaa\
      aaaaaaaaaaaaaaaaaaaaaaaay\0",
    // 33 structs nest in a signature.
    b"l\x04\x01\x01E\0\0\0\x01\0\0\07\0\0\0\x01\x01o\0\x01\0\0\0/\0\0\0\0\0\0\0\x02\x01s\0\x03\
      \0\0\0a.b\0\0\0\0\0\x03\x01s\0\x01\0\0\0C\0\0\0\0\0\0\0\x08\x01g\0\x01g\0\0C((((((((((((\
      (((((((((((((((((((((y)))))))))))))))))))))))))))))))))\0",
    // A variant has no type.
    b"l\x04\x01\x01\x02\0\0\0\x01\0\0\07\0\0\0\x01\x01o\0\x01\0\0\0/\0\0\0\0\0\0\0\x02\x01s\0\
      \x03\0\0\0a.b\0\0\0\0\0\x03\x01s\0\x01\0\0\0C\0\0\0\0\0\0\0\x08\x01g\0\x01v\0\0\0\0",
    // A variant has two types.
    b"l\x04\x01\x01\x06\0\0\0\x01\0\0\07\0\0\0\x01\x01o\0\x01\0\0\0/\0\0\0\0\0\0\0\x02\x01s\0\
      \x03\0\0\0a.b\0\0\0\0\0\x03\x01s\0\x01\0\0\0C\0\0\0\0\0\0\0\x08\x01g\0\x01v\0\0\x02yy\0\
      \x01\x02",
    // A variant has no byte 0.
    b"l\x04\x01\x01\x04\0\0\0\x01\0\0\07\0\0\0\x01\x01o\0\x01\0\0\0/\0\0\0\0\0\0\0\x02\x01s\0\
      \x03\0\0\0a.b\0\0\0\0\0\x03\x01s\0\x01\0\0\0C\0\0\0\0\0\0\0\x08\x01g\0\x01v\0\0\x01yy\
      \x01",
    // An array has more than 64 MiB.
    b"l\x04\x01\x01\x05\0\0\0\x01\0\0\08\0\0\0\x01\x01o\0\x01\0\0\0/\0\0\0\0\0\0\0\x02\x01s\0\
      \x03\0\0\0a.b\0\0\0\0\0\x03\x01s\0\x01\0\0\0C\0\0\0\0\0\0\0\x08\x01g\0\x02ay\0\x01\0\0\
      \x04\x01",
    // An array is longer than the body.
    b"l\x04\x01\x01\x06\0\0\0\x01\0\0\08\0\0\0\x01\x01o\0\x01\0\0\0/\0\0\0\0\0\0\0\x02\x01s\0\
      \x03\0\0\0a.b\0\0\0\0\0\x03\x01s\0\x01\0\0\0C\0\0\0\0\0\0\0\x08\x01g\0\x02ay\0\x03\0\0\0\
      \x01\x02",
    // An array ends inside an item.
    b"l\x04\x01\x01\x07\0\0\0\x01\0\0\08\0\0\0\x01\x01o\0\x01\0\0\0/\0\0\0\0\0\0\0\x02\x01s\0\
      \x03\0\0\0a.b\0\0\0\0\0\x03\x01s\0\x01\0\0\0C\0\0\0\0\0\0\0\x08\x01g\0\x02au\0\x03\0\0\0\
      \x01\0\0",
    // 65 variants nest.
    b"l\x04\x01\x01\xc4\0\0\0\x01\0\0\07\0\0\0\x01\x01o\0\x01\0\0\0/\0\0\0\0\0\0\0\x02\x01s\0\
      \x03\0\0\0a.b\0\0\0\0\0\x03\x01s\0\x01\0\0\0C\0\0\0\0\0\0\0\x08\x01g\0\x01v\0\0\x01v\0\
      \x01v\0\x01v\0\x01v\0\x01v\0\x01v\0\x01v\0\x01v\0\x01v\0\x01v\0\x01v\0\x01v\0\x01v\0\x01\
      v\0\x01v\0\x01v\0\x01v\0\x01v\0\x01v\0\x01v\0\x01v\0\x01v\0\x01v\0\x01v\0\x01v\0\x01v\0\
      \x01v\0\x01v\0\x01v\0\x01v\0\x01v\0\x01v\0\x01v\0\x01v\0\x01v\0\x01v\0\x01v\0\x01v\0\x01\
      v\0\x01v\0\x01v\0\x01v\0\x01v\0\x01v\0\x01v\0\x01v\0\x01v\0\x01v\0\x01v\0\x01v\0\x01v\0\
      \x01v\0\x01v\0\x01v\0\x01v\0\x01v\0\x01v\0\x01v\0\x01v\0\x01v\0\x01v\0\x01v\0\x01v\0\x01\
      v\0\x01y\0\x07",
];

/// Messages.
pub const GOOD: [&[u8]; 9] = [
    // The usual one.
    b"l\x04\x01\x01\0\0\0\0\x01\0\0\0*\0\0\0\x01\x01o\0\x01\0\0\0/\0\0\0\0\0\0\0\x02\x01s\0\
      \x03\0\0\0a.b\0\0\0\0\0\x03\x01s\0\x01\0\0\0C\0\0\0\0\0\0\0",
    // An interface has 255 bytes.
    b"l\x04\x01\x01\0\0\0\0\x01\0\0\0\x22\x01\0\0\x01\x01o\0\x01\0\0\0/\0\0\0\0\0\0\0\x02\x01s\
      \0\xff\0\0\0a.bbbbbbbbbbbbbbbbbbbbbbbbbbbbbbbbbbbbbbbbbbbbbbbbbbbbbbbbbbbbbbbbbbbbbbbbbb\
      bbbbbbbbbbbbbbbbbbbbbbbbbbbbbbbbbbbbbbbbbbbbbbbbbbbbbbbbbbbbbbbbbbbbbbbbbbbbbbbbbbbbbbbb\
      bbbbbbbbbbbbbbbbbbbbbbbbbbbbbbbbbbbbbbbbbbbbbbbbbbbbbbbbbbbbbbbbbbbbbbbbbbbbbbbbbbbbbbbb\
      bbb\0\x03\x01s\0\x01\0\0\0C\0\0\0\0\0\0\0",
    // A member has 255 bytes.
    b"l\x04\x01\x01\0\0\0\0\x01\0\0\0(\x01\0\0\x01\x01o\0\x01\0\0\0/\0\0\0\0\0\0\0\x02\x01s\0\
      \x03\0\0\0a.b\0\0\0\0\0\x03\x01s\0\xff\0\0\0CCCCCCCCCCCCCCCCCCCCCCCCCCCCCCCCCCCCCCCCCCCC\
      CCCCCCCCCCCCCCCCCCCCCCCCCCCCCCCCCCCCCCCCCCCCCCCCCCCCCCCCCCCCCCCCCCCCCCCCCCCCCCCCCCCCCCCC\
      CCCCCCCCCCCCCCCCCCCCCCCCCCCCCCCCCCCCCCCCCCCCCCCCCCCCCCCCCCCCCCCCCCCCCCCCCCCCCCCCCCCCCCCC\
      CCCCCCCCCCCCCCCCCCCCCCCCCCCCCCCCCCC\0",
    // Fields of an unknown code stand twice.
    b"l\x04\x01\x01\0\0\0\0\x01\0\0\0H\0\0\0\x01\x01o\0\x01\0\0\0/\0\0\0\0\0\0\0\x02\x01s\0\
      \x03\0\0\0a.b\0\0\0\0\0\x03\x01s\0\x01\0\0\0C\0\0\0\0\0\0\0\xc8\x01s\0\x01\0\0\0x\0\0\0\
      \0\0\0\0\xc8\x01u\0\x01\0\0\0",
    // A kind is unknown, and needs no field.
    b"l\x09\x01\x01\0\0\0\0\x01\0\0\0\0\0\0\0",
    // 64 variants nest.
    b"l\x04\x01\x01\xc1\0\0\0\x01\0\0\07\0\0\0\x01\x01o\0\x01\0\0\0/\0\0\0\0\0\0\0\x02\x01s\0\
      \x03\0\0\0a.b\0\0\0\0\0\x03\x01s\0\x01\0\0\0C\0\0\0\0\0\0\0\x08\x01g\0\x01v\0\0\x01v\0\
      \x01v\0\x01v\0\x01v\0\x01v\0\x01v\0\x01v\0\x01v\0\x01v\0\x01v\0\x01v\0\x01v\0\x01v\0\x01\
      v\0\x01v\0\x01v\0\x01v\0\x01v\0\x01v\0\x01v\0\x01v\0\x01v\0\x01v\0\x01v\0\x01v\0\x01v\0\
      \x01v\0\x01v\0\x01v\0\x01v\0\x01v\0\x01v\0\x01v\0\x01v\0\x01v\0\x01v\0\x01v\0\x01v\0\x01\
      v\0\x01v\0\x01v\0\x01v\0\x01v\0\x01v\0\x01v\0\x01v\0\x01v\0\x01v\0\x01v\0\x01v\0\x01v\0\
      \x01v\0\x01v\0\x01v\0\x01v\0\x01v\0\x01v\0\x01v\0\x01v\0\x01v\0\x01v\0\x01v\0\x01v\0\x01\
      y\0\x07",
    // An array is empty, and is padded for its items.
    b"l\x04\x01\x01\x08\0\0\0\x01\0\0\08\0\0\0\x01\x01o\0\x01\0\0\0/\0\0\0\0\0\0\0\x02\x01s\0\
      \x03\0\0\0a.b\0\0\0\0\0\x03\x01s\0\x01\0\0\0C\0\0\0\0\0\0\0\x08\x01g\0\x02at\0\0\0\0\0\0\
      \0\0\0",
    // A signature is empty.
    b"l\x04\x01\x01\0\0\0\0\x01\0\0\06\0\0\0\x01\x01o\0\x01\0\0\0/\0\0\0\0\0\0\0\x02\x01s\0\
      \x03\0\0\0a.b\0\0\0\0\0\x03\x01s\0\x01\0\0\0C\0\0\0\0\0\0\0\x08\x01g\0\0\0\0\0",
    // 32 arrays nest in a signature.
    b"l\x04\x01\x01#\0\0\0\x01\0\0\07\0\0\0\x01\x01o\0\x01\0\0\0/\0\0\0\0\0\0\0\x02\x01s\0\x03\
      \0\0\0a.b\0\0\0\0\0\x03\x01s\0\x01\0\0\0C\0\0\0\0\0\0\0\x08\x01g\0\x01g\0\0!aaaaaaaaaaaa\
      aaaaaaaaaaaaaaaaaaaay\0",
];
