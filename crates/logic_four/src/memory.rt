//! Laws of the memory act. A memory has no code in this crate.

ghost use Rattle.logic_four.specs.MemoryLaws.{BitZeroComesFirst, UndefinedBitsHideAddress, AddressIsWithin, AnswersOldWord, UnknownAddressAnswersUndefined, DisabledKeepsWords, ReadsWhatWasWritten, UndefinedEnableHidesWord, KeepsOtherWords, UnknownAddressHidesAll, BeginsInShape, BeginsAsInitial, KeepsShape, OutputsFitWord};

/// Laws: what the outputs and the words of a memory are at an edge and after it. It does nothing.
pub fn memory_laws()
    // Addresses.
    ensures bit_zero_first { BitZeroComesFirst }
    ensures undefined_bits { UndefinedBitsHideAddress }
    ensures address_within { AddressIsWithin }

    // What an edge answers.
    ensures old_word { AnswersOldWord }
    ensures unknown_address_answers { UnknownAddressAnswersUndefined }

    // What an edge writes.
    ensures disabled { DisabledKeepsWords }
    ensures reads_what_was_written { ReadsWhatWasWritten }
    ensures undefined_enable { UndefinedEnableHidesWord }
    ensures other_words { KeepsOtherWords }
    ensures unknown_address_writes { UnknownAddressHidesAll }

    // The first words, and the shape of all later ones.
    ensures first_shape { BeginsInShape }
    ensures first_words { BeginsAsInitial }
    ensures shape { KeepsShape }
    ensures outputs_fit { OutputsFitWord }
{}
