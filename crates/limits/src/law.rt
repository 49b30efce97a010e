//! A law of the profile: a function that does nothing, whose clauses are its numbers in digits.

ghost use Rattle.std.specs.Prelude.{◌≡◌};
ghost use Rattle.limits.specs.declared.TheConstants.{MAX_TEXT_BYTES, MAX_SIGNALS, MAX_OPERANDS, MAX_GATE_OPERANDS, MAX_NAME_BYTES, MAX_ADDRESS_BITS, MAX_WORD_BITS, MAX_CYCLES, MAX_REPEAT, MAX_STEPS, MAX_CELLS, MAX_UNITS, MAX_LOGIC, MAX_ARRAY, MAX_PORTS, MAX_SLOTS, MAX_FUNCTIONS, MAX_NODES, MAX_ARRAY_BITS, MAX_BANKS, MAX_WORKERS, MAX_LARGE_GATES, MAX_LARGE_CYCLES, LANES, MAX_PACK_BITS, MAX_FAULT_SIGNALS, MAX_BLOCK, DEFAULT_UNITS, DEFAULT_BANKS, DEFAULT_WORKERS, DEFAULT_LOGIC, DEFAULT_ARRAY, DEFAULT_FUNCTIONS, DEFAULT_ARRAY_BITS, LARGE_LOGIC};

/// A law: what each limit is. The numbers are those of this project's profile. It does nothing.
pub fn profile()
    ensures text_bytes { MAX_TEXT_BYTES ≡ 67108864 }
    ensures signals { MAX_SIGNALS ≡ 1048576 }
    ensures operands { MAX_OPERANDS ≡ 4194304 }
    ensures gate_operands { MAX_GATE_OPERANDS ≡ 1024 }
    ensures name_bytes { MAX_NAME_BYTES ≡ 255 }
    ensures address_bits { MAX_ADDRESS_BITS ≡ 16 }
    ensures word_bits { MAX_WORD_BITS ≡ 64 }
    ensures cycles { MAX_CYCLES ≡ 1000000 }
    ensures repeat { MAX_REPEAT ≡ 1000000 }
    ensures steps { MAX_STEPS ≡ 1000000000 }
    ensures cells { MAX_CELLS ≡ 268435456 }
    ensures units { MAX_UNITS ≡ 4096 }
    ensures logic { MAX_LOGIC ≡ 254 }
    ensures array { MAX_ARRAY ≡ 64 }
    ensures ports { MAX_PORTS ≡ 256 }
    ensures slots { MAX_SLOTS ≡ 65536 }
    ensures functions { MAX_FUNCTIONS ≡ 4096 }
    ensures nodes { MAX_NODES ≡ 4194304 }
    ensures array_bits { MAX_ARRAY_BITS ≡ 16777216 }
    ensures banks { MAX_BANKS ≡ 8 }
    ensures workers { MAX_WORKERS ≡ 64 }
    ensures large_gates { MAX_LARGE_GATES ≡ 30000 }
    ensures large_cycles { MAX_LARGE_CYCLES ≡ 10000 }
    ensures lanes { LANES ≡ 30 }
    ensures pack_bits { MAX_PACK_BITS ≡ 16777216 }
    ensures fault_signals { MAX_FAULT_SIGNALS ≡ 65536 }
    ensures block { MAX_BLOCK ≡ 4096 }
    ensures default_units { DEFAULT_UNITS ≡ 1 }
    ensures default_banks { DEFAULT_BANKS ≡ 1 }
    ensures default_workers { DEFAULT_WORKERS ≡ 4 }
    ensures default_logic { DEFAULT_LOGIC ≡ 4 }
    ensures default_array { DEFAULT_ARRAY ≡ 1 }
    ensures default_functions { DEFAULT_FUNCTIONS ≡ 256 }
    ensures default_array_bits { DEFAULT_ARRAY_BITS ≡ 65536 }
    ensures large_logic { LARGE_LOGIC ≡ 16 }
{}
