//! The words of segments fit 64 bits.

ghost use Rattle.std.specs.Prelude.{All};
ghost use Rattle.cp_words.specs.Segments.{words_of};
ghost use Rattle.cp_tree.specs.Shaped.{AllFit};

/// The words of all segments fit 64 bits. This only tells a proof, for a step a segment: of vectors in a slice it
/// learns that by their types inside a loop alone, and by no lemma.
pub(crate) fn segments_fit(segments: &[Vec<u64>])
    ensures { All (AllFit 64) (words_of segments.now) }
{
    for words in segments {
        words_fit(words);
    }
}

/// The same of one segment.
pub(crate) fn words_fit(_words: &[u64])
    ensures { AllFit 64 _words.now }
{}
