//! Laws of keys, of first faults and of extracts.
ghost use Rattle.grok.specs.Keys.{EndsInNumberWhereNumbered, ClashNeedsNumber, KeysAreDistinct};
ghost use Rattle.grok.specs.FirstFault.{FirstFaultIsFirst, OtherFaultIsStructural, ExtractIsLast};

/// Laws of the keys of capturing placeholders. A text ends in a number in brackets exactly if it is
/// `x[n]` for some text `x` and some number `n` from 1 up. If no alias that is reached ends so,
/// there is no clash. If the first fault is not a clash, no two capturing placeholders before it
/// share a key.
pub fn laws_of_keys()
    ensures numbered { EndsInNumberWhereNumbered }
    ensures clash { ClashNeedsNumber }
    ensures distinct { KeysAreDistinct }
{}

/// No event before the first fault of a tree is a fault. If that fault isn't a clash, it is the first
/// structural fault. The extract of a key is that of the last placeholder that has the key and an
/// extract.
pub fn laws_of_order()
    ensures fault { FirstFaultIsFirst }
    ensures other { OtherFaultIsStructural }
    ensures extract { ExtractIsLast }
{}
