ghost use Rattle.std.specs.Prelude.{◌≡◌, List};
ghost use Rattle.clap.specs.Words.{Text};
ghost use Rattle.emerge_words.specs.Requests.{IsRefusal, IsRequest, SameTold};
ghost use Rattle.emerge_words.specs.declared.request.Request.{Request};
ghost use Rattle.emerge_words.specs.declared.request.WordFault.{WordFault};
ghost use Rattle.emerge_words.specs.declared.request.WordFault.TheVariants.{Memory};

/// A law: words that ask for something are refused for want of memory alone, and but for that words
/// are refused for one cause.
pub fn one_answer()
    ensures request { (words : List Text) (r : Request) (fault : WordFault) →
        IsRequest words r → IsRefusal words fault → fault ≡ Memory }
    ensures refusal { (words : List Text) (a b : WordFault) →
        IsRefusal words a → IsRefusal words b → SameTold a b }
{}
