//! Laws of every stream. Each law is a function with an empty body, whose contract is the law.

ghost use Rattle.std.specs.Prelude.{◌≡◌, ◌++◌, ℕ, [], List, Option, None};
ghost use Rattle.std.specs.List.{AllByRecursion};
ghost use Rattle.mig_model.specs.Bounds.{IsFrame};
ghost use Rattle.mig_model.specs.Wire.{Frame, Sent};
ghost use Rattle.page_stream.specs.Texts as texts;
ghost use Rattle.frame_decoder.specs.declared.version.Version.{Version};
ghost use Rattle.frame_decoder.specs.declared.version.Version.TheVariants.{One, Two};
ghost use Rattle.frame_decoder.specs.Versions.{IsFrameIn};
ghost use Rattle.frame_decoder.specs.Streams.{IsFrontOfText, IsSent, Held, Split, Splits, SplitsAs, texts as all_texts};
ghost use Rattle.frame_decoder.specs.Feeding.{fresh, Decodes, Feed, IsFeedRun, bytes_fed, all_frames};

/// A stream has one reading: it determines its frames, what is held of its rest, the fault, and the version that is fixed then.
pub fn one_reading()
    ensures { (fixed : Option Version) (stream : List ℕ) (a b : Split) →
        SplitsAs fixed stream a → SplitsAs fixed stream b → a ≡ b }
{}

/// However a stream is cut into pieces, a decoder returns exactly the frames at its front, all of one version, and holds less than a frame
/// or the first fault. Pieces that were refused for lack of memory are left out.
pub fn any_cut()
    ensures { (feeds : List Feed) (new : Held) → IsFeedRun fresh feeds new →
        Splits None (bytes_fed feeds) (all_frames feeds) new.bytes new.fault new.version }
{}

/// A decoder that is fed two cuttings of one stream returns the same frames and holds the same in the end.
pub fn cuts_agree()
    ensures frames { (feeds others : List Feed) (new last : Held) → IsFeedRun fresh feeds new →
        IsFeedRun fresh others last → bytes_fed feeds ≡ bytes_fed others →
        all_frames feeds ≡ all_frames others }
    ensures held { (feeds others : List Feed) (new last : Held) → IsFeedRun fresh feeds new →
        IsFeedRun fresh others last → bytes_fed feeds ≡ bytes_fed others → new ≡ last }
{}

/// Each frame that a stream of either version may have is well formed: `page_stream` writes it in version 2, and it can be read back.
pub fn read_frames_are_written_again()
    ensures right { (version : Version) (sent : Sent) → IsSent version sent → IsFrame sent.frame }
    ensures encodable { (version : Version) (sent : Sent) → IsSent version sent →
        texts.IsEncodable texts.Version.Two sent.epoch sent.frame }
    ensures two { (frame : Frame) → IsFrame frame → IsFrameIn Two frame }
{}

/// A frame that version 1 may have is one that version 2 may have.
pub fn older_frames_stand()
    ensures { (frame : Frame) → IsFrameIn One frame → IsFrameIn Two frame }
{}

/// A decoder that is fed the texts of frames, cut anywhere, returns these frames, in order, and no fault, and then holds no byte. If less
/// than one more text stands after them, it holds that.
pub fn texts_are_decoded()
    ensures all { (version : Version) (frames : List Sent) →
        AllByRecursion (IsSent version) frames → Decodes (all_texts version frames) frames [] }
    ensures part { (version : Version) (frames : List Sent) (front : List ℕ) →
        AllByRecursion (IsSent version) frames → IsFrontOfText version front →
        Decodes (all_texts version frames ++ front) frames front }
{}
