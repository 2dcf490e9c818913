// That accesses are read exactly.
ghost use Rattle.row_words.specs.Reading.{Reads, list_at};
ghost use Rattle.row_words.specs.AccessBytes.{location_bytes, access_bytes, accesses_bytes, IsLocation, IsAccess, AreAccesses};
ghost use Rattle.row_words.specs.AccessReading.{location_at, access_at};

/// The law that accesses are read exactly: what has the bytes of an access is read as that access, whatever follows it, and what is read as
/// an access has its bytes.
pub fn accesses_are_read_exactly()
    ensures locations { Reads location_bytes IsLocation location_at }
    ensures accesses { Reads access_bytes IsAccess access_at }
    ensures lists { Reads accesses_bytes AreAccesses (list_at access_at) }
{}
