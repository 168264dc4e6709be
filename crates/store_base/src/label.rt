//! Labels.

ghost use Rattle.std.specs.Prelude.{◌≡◌, ◌↔◌, Some, IsTrue, IsNone, IsSome, IfSome, length, nat_eq};
ghost use Rattle.std.proofs.Common.{refl};
ghost use Rattle.std.specs.Cmp.{partial_equiv_from_equiv, on_equiv, on_per, on_po, on_total};
ghost use Rattle.std.specs.Cmp.Lexicographic.{pointwise, nat_list_eq_equiv, nat_list_cmp_total, texts_po, texts_ties};
ghost use Rattle.std.specs.Cmp.Lexicographic.{slice_cmp};
ghost use Rattle.std.specs.Ordering.{nat_cmp};
ghost use Rattle.store_model.specs.Labels as model;
ghost use Rattle.store_model.specs.Labels.{IsLead, IsLabel, lead_bytes, label_bytes, label_cmp};
ghost use Rattle.store_base.specs.Leads.{model_lead};

use crate::key::Key;
use byteorder::{BigEndian, ByteOrder};
use std::cmp::Ordering;
use std::marker::Model;

/// What leads a group of pages. Leads are ordered as the bytes that they have in a label: the start comes
/// before each key.
#[derive(Clone, Copy, Debug)]
pub enum Lead {
    /// The start of the list.
    Start,
    /// A key.
    Key(Key),
}

/// The name of a page: the level of the list that it belongs to, what leads its group, and its place in
/// the group. Labels are ordered as their 130 bytes; the smaller label has the higher rank.
#[derive(Clone, Copy, Debug)]
pub struct Label {
    /// The level of the list, from 0.
    pub level: u8,
    /// What leads the group.
    pub lead: Lead,
    /// The place of the page in its group, from 0.
    pub index: u32,
}

impl Model for Label {
    ghost use Rattle.store_model.specs.Labels as model;
    ghost use Rattle.store_model.specs.Labels.{IsLabel};

    ghost Value = { model.Label };

    ghost use Rattle.store_base.specs.Leads.{model_lead, declared_lead};

    ghost view = { λ l. record { level = l.level; lead = model_lead l.lead; index = l.index } };

    ghost invariant = { λ l. IsLabel (record {
      level = l.level;
      lead = model_lead l.lead;
      index = l.index;
    }) };

    ghost inverse = { λ l. record {
      level = l.level;
      lead = declared_lead l.lead;
      index = l.index;
    } };
}

impl Lead {
    /// The 124 bytes of the key that leads; `None` for the start.
    pub fn key_bytes(&self) -> Option<&[u8; 124]>
        ensures start { IsNone result ↔ (model_lead self.now ≡ model.Start) }
        ensures key { IfSome result (λ bytes. model_lead self.now ≡ model.Leader bytes.now) }
        ensures valid { IsLead (model_lead self.now) }
    {
        match self {
            Lead::Start => None,
            Lead::Key(key) => Some(key.as_bytes()),
        }
    }

    /// The lead with these 125 bytes of a label; `None` exactly where they are no lead's.
    fn from_bytes(bytes: &[u8]) -> Option<Lead>
        requires { length bytes.now ≡ 125 }
        ensures found { IfSome result (λ lead. IsLead (model_lead lead)
            × (lead_bytes (model_lead lead) ≡ bytes.now)) }
        ensures only { (lead : model.Lead) → IsLead lead
            → lead_bytes lead ≡ bytes.now → IsSome result }
    {
        match bytes[0] {
            0 if bytes[1..] == [0; 124] => Some(Lead::Start),
            1 => {
                let mut key = [0; 124];
                key.copy_from_slice(&bytes[1..]);
                Some(Lead::Key(Key::new(key)))
            }
            _ => None,
        }
    }
}

impl Label {
    /// Its 130 bytes in an image: the level; 0 and 124 zeros for the start, or 1 and the key; and the index,
    /// big-endian.
    pub fn to_bytes(&self) -> [u8; 130]
        ensures value { result ≡ label_bytes self.now }
        ensures valid { IsLabel self.now }
    {
        let mut bytes = [0; 130];
        bytes[0] = self.level;
        if let Lead::Key(key) = self.lead {
            bytes[1] = 1;
            bytes[2..126].copy_from_slice(key.as_bytes());
        }
        BigEndian::write_u32(&mut bytes[126..], self.index);
        bytes
    }

    /// The label that these bytes spell; `None` exactly where they spell none: byte 1 is neither 0 nor 1,
    /// or it is 0 and bytes 2 to 125 are not all zero.
    pub fn from_bytes(bytes: &[u8; 130]) -> Option<Label>
        ensures found { IfSome result (λ label. IsLabel label × (label_bytes label ≡ bytes.now)) }
        ensures only { (label : model.Label) → IsLabel label → label_bytes label ≡ bytes.now
            → result ≡ Some label }
    {
        let lead = Lead::from_bytes(&bytes[1..126])?;
        let mut index = [0; 4];
        index.copy_from_slice(&bytes[126..]);
        Some(Label {
            level: bytes[0],
            lead,
            index: u32::from_be_bytes(index),
        })
    }
}

impl PartialEq for Lead {
    ghost eq = { λ a b. pointwise nat_eq (lead_bytes (model_lead a)) (lead_bytes (model_lead b)) };

    ghost laws = { on_per (λ a. lead_bytes (model_lead a))
        (partial_equiv_from_equiv nat_list_eq_equiv) };

    fn eq(&self, other: &Self) -> bool
        ensures value { result ≡ pointwise nat_eq (lead_bytes (model_lead self.now))
            (lead_bytes (model_lead other.now)) }
        ensures same { IsTrue result ↔ (model_lead self.now ≡ model_lead other.now) }
    {
        match (self, other) {
            (Lead::Start, Lead::Start) => true,
            (Lead::Key(key), Lead::Key(other)) => key == other,
            _ => false,
        }
    }
}

impl Eq for Lead {
    ghost laws = { on_equiv (λ a. lead_bytes (model_lead a)) nat_list_eq_equiv };
}

impl PartialOrd for Lead {
    ghost partial_cmp = { λ a b.
        Some (slice_cmp nat_cmp (lead_bytes (model_lead a)) (lead_bytes (model_lead b))) };

    ghost laws = { on_po (λ a. lead_bytes (model_lead a)) texts_po };

    fn partial_cmp(&self, other: &Self) -> Option<Ordering> {
        Some(self.cmp(other))
    }
}

impl Ord for Lead {
    ghost cmp = { λ a b. slice_cmp nat_cmp (lead_bytes (model_lead a))
        (lead_bytes (model_lead b)) };

    ghost total = { on_total (λ a. lead_bytes (model_lead a)) nat_list_cmp_total };

    ghost matches_partial_cmp = { λ a b. refl };

    ghost matches_eq = { λ a b. texts_ties (lead_bytes (model_lead a))
        (lead_bytes (model_lead b)) };

    fn cmp(&self, other: &Self) -> Ordering
        ensures value { result ≡ slice_cmp nat_cmp (lead_bytes (model_lead self.now))
            (lead_bytes (model_lead other.now)) }
    {
        match (self, other) {
            (Lead::Start, Lead::Start) => Ordering::Equal,
            (Lead::Start, Lead::Key(_)) => Ordering::Less,
            (Lead::Key(_), Lead::Start) => Ordering::Greater,
            (Lead::Key(key), Lead::Key(other)) => key.cmp(other),
        }
    }
}

impl PartialEq for Label {
    ghost eq = { λ a b. pointwise nat_eq (label_bytes a) (label_bytes b) };

    ghost laws = { on_per label_bytes (partial_equiv_from_equiv nat_list_eq_equiv) };

    fn eq(&self, other: &Self) -> bool
        ensures value { result ≡ pointwise nat_eq (label_bytes self.now) (label_bytes other.now) }
        ensures same { IsTrue result ↔ (self.now ≡ other.now) }
    {
        self.level == other.level && self.index == other.index && self.lead == other.lead
    }
}

impl Eq for Label {
    ghost laws = { on_equiv label_bytes nat_list_eq_equiv };
}

impl PartialOrd for Label {
    ghost partial_cmp = { λ a b. Some (label_cmp a b) };

    ghost laws = { on_po label_bytes texts_po };

    fn partial_cmp(&self, other: &Self) -> Option<Ordering> {
        Some(self.cmp(other))
    }
}

impl Ord for Label {
    ghost cmp = { label_cmp };

    ghost total = { on_total label_bytes nat_list_cmp_total };

    ghost matches_partial_cmp = { λ a b. refl };

    ghost matches_eq = { λ a b. texts_ties (label_bytes a) (label_bytes b) };

    fn cmp(&self, other: &Self) -> Ordering
        ensures value { result ≡ label_cmp self.now other.now }
        ensures valid { IsLabel self.now × IsLabel other.now }
    {
        self.level
            .cmp(&other.level)
            .then(self.lead.cmp(&other.lead))
            .then(self.index.cmp(&other.index))
    }
}
