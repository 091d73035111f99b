// What the calls below answer, as C gets it: part for part, verdicts, digests and metadata in C's form. An array is named
// before it goes into a literal.
ghost use Rattle.std.specs.Prelude.{◌≡◌};
ghost use Rattle.quaythistle.specs.Shown.{shown_digested, shown_tagged, shown_matched, shown_checked, shown_loaded, shown_proved, shown_applied, shown_shaped, shown_saved, shown_answered, shown_answered_jointly};

use crate::plain::QtDigest;
use crate::{
    QtAnswer, QtCounted, QtDigested, QtJointAnswer, QtMatched, QtMetadataAnswer, QtProved, QtSaved,
};
use gateway::saved;
use labels::{Matched, Tagged};
use sha256::Digested;
use shapes::Shaped;
use store::{Applied, Checked, Proved};

impl From<Digested> for QtDigested {
    ghost from_gives = { λ d r. r ≡ shown_digested d };

    fn from(d: Digested) -> QtDigested {
        let bytes = d.bytes;
        QtDigested {
            verdict: d.verdict.into(),
            digest: QtDigest { bytes },
        }
    }
}

impl From<Tagged> for QtDigested {
    ghost from_gives = { λ t r. r ≡ shown_tagged t };

    fn from(t: Tagged) -> QtDigested {
        let bytes = t.tag;
        QtDigested {
            verdict: t.verdict.into(),
            digest: QtDigest { bytes },
        }
    }
}

impl From<Matched> for QtMatched {
    ghost from_gives = { λ m r. r ≡ shown_matched m };

    fn from(m: Matched) -> QtMatched {
        QtMatched {
            verdict: m.verdict.into(),
            yes: m.yes,
        }
    }
}

impl From<Checked> for QtMetadataAnswer {
    ghost from_gives = { λ c r. r ≡ shown_checked c };

    fn from(c: Checked) -> QtMetadataAnswer {
        QtMetadataAnswer {
            verdict: c.verdict.into(),
            metadata: c.metadata.into(),
        }
    }
}

impl From<saved::Loaded> for QtMetadataAnswer {
    ghost from_gives = { λ l r. r ≡ shown_loaded l };

    fn from(l: saved::Loaded) -> QtMetadataAnswer {
        QtMetadataAnswer {
            verdict: l.verdict.into(),
            metadata: l.metadata.into(),
        }
    }
}

impl From<Proved> for QtProved {
    ghost from_gives = { λ p r. r ≡ shown_proved p };

    fn from(p: Proved) -> QtProved {
        QtProved {
            verdict: p.verdict.into(),
            length: p.length,
            entries: p.entries,
        }
    }
}

impl From<Applied> for QtCounted {
    ghost from_gives = { λ a r. r ≡ shown_applied a };

    fn from(a: Applied) -> QtCounted {
        QtCounted {
            verdict: a.verdict.into(),
            count: a.count,
        }
    }
}

impl From<Shaped> for QtCounted {
    ghost from_gives = { λ s r. r ≡ shown_shaped s };

    fn from(s: Shaped) -> QtCounted {
        QtCounted {
            verdict: s.verdict.into(),
            count: s.blocks,
        }
    }
}

impl From<saved::Saved> for QtSaved {
    ghost from_gives = { λ s r. r ≡ shown_saved s };

    fn from(s: saved::Saved) -> QtSaved {
        let bytes = s.bytes;
        QtSaved {
            verdict: s.verdict.into(),
            bytes,
        }
    }
}

impl From<gateway::Answer> for QtAnswer {
    ghost from_gives = { λ a r. r ≡ shown_answered a };

    fn from(a: gateway::Answer) -> QtAnswer {
        let bytes = a.tag;
        QtAnswer {
            verdict: a.verdict.into(),
            tag: QtDigest { bytes },
            metadata: a.metadata.into(),
        }
    }
}

impl From<jointgateway::Answer> for QtJointAnswer {
    ghost from_gives = { λ a r. r ≡ shown_answered_jointly a };

    fn from(a: jointgateway::Answer) -> QtJointAnswer {
        let tags = a.tags;
        QtJointAnswer {
            verdict: a.verdict.into(),
            number: a.number,
            tags,
            metadata: a.metadata.into(),
        }
    }
}
