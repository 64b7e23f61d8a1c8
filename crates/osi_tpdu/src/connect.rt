//! The fields that a CR and a CC have in common.

ghost use Rattle.std.specs.Prelude.{◌≡◌, ◌<◌, None};

use crate::limits::SizeCode;
use crate::tsaps::Selector;

/// The parameters of a CR or CC that are known here (X.224 section 13.3.4). All others are skipped.
#[derive(Clone, Copy, PartialEq, Eq)]
pub struct ConnectParameters<'a> {
    /// C0: the TPDU size that is proposed or selected.
    pub size: Option<SizeCode>,
    /// C1: the calling transport selector.
    pub calling: Option<Selector<'a>>,
    /// C2: the called transport selector.
    pub called: Option<Selector<'a>>,
    /// C6: additional options; bit 1 asks for expedited data.
    pub additional_options: Option<u8>,
    /// C7: alternative classes, an octet for each, the class in its high half.
    pub alternative_classes: Option<&'a [u8]>,
}

impl<'a> ConnectParameters<'a> {
    /// No parameter.
    pub fn none() -> Self
        ensures size { result.size ≡ None }
        ensures calling { result.calling ≡ None }
        ensures called { result.called ≡ None }
        ensures additional_options { result.additional_options ≡ None }
        ensures alternative_classes { result.alternative_classes ≡ None }
    {
        ConnectParameters {
            size: None,
            calling: None,
            called: None,
            additional_options: None,
            alternative_classes: None,
        }
    }

    /// C0: the TPDU size that is proposed or selected.
    pub fn size(&self) -> Option<SizeCode>
        ensures { result ≡ self.now.size }
    {
        self.size
    }

    /// C1: the calling transport selector.
    pub fn calling(&self) -> Option<Selector<'a>>
        ensures { result ≡ self.now.calling }
    {
        self.calling
    }

    /// C2: the called transport selector.
    pub fn called(&self) -> Option<Selector<'a>>
        ensures { result ≡ self.now.called }
    {
        self.called
    }

    /// C6: additional options; bit 1 asks for expedited data.
    pub fn additional_options(&self) -> Option<u8>
        ensures { result ≡ self.now.additional_options }
    {
        self.additional_options
    }

    /// C7: alternative classes, an octet for each, the class in its high half.
    pub fn alternative_classes(&self) -> Option<&'a [u8]>
        ensures { result ≡ self.now.alternative_classes }
    {
        self.alternative_classes
    }
}

/// The fields that a CR and a CC share (X.224 sections 13.3 and 13.4).
#[derive(Clone, Copy, PartialEq, Eq)]
pub struct ConnectFields<'a> {
    /// CDT: the first credit, 0 to 15.
    pub credit: u8,
    /// SRC-REF: the reference that the sender gave the connection.
    pub source: u16,
    /// The class that a CR prefers or a CC selects, 0 to 15.
    pub class: u8,
    /// The low half of the class octet: bit 2 asks for extended formats, bit 1 for no explicit flow
    /// control.
    pub options: u8,
    /// The parameters that are known here.
    pub parameters: ConnectParameters<'a>,
    /// User data, up to the end of the packet.
    pub user: &'a [u8],
    pub ghost credit_fits: { credit < 16 },
    pub ghost class_fits: { class < 16 },
    pub ghost options_fit: { options < 16 },
}

impl<'a> ConnectFields<'a> {
    /// CDT: the first credit, 0 to 15 (X.224 sections 13.3 and 13.4).
    pub fn credit(&self) -> u8
        ensures { result ≡ self.now.credit }
    {
        self.credit
    }

    /// SRC-REF: the reference that the sender gave the connection.
    pub fn source(&self) -> u16
        ensures { result ≡ self.now.source }
    {
        self.source
    }

    /// The class that a CR prefers or a CC selects, 0 to 15.
    pub fn class(&self) -> u8
        ensures { result ≡ self.now.class }
    {
        self.class
    }

    /// The low half of the class octet, 0 to 15.
    pub fn options(&self) -> u8
        ensures { result ≡ self.now.options }
    {
        self.options
    }

    /// The parameters that are known here.
    pub fn parameters(&self) -> ConnectParameters<'a>
        ensures { result ≡ self.now.parameters }
    {
        self.parameters
    }

    /// User data, up to the end of the packet.
    pub fn user(&self) -> &'a [u8]
        ensures { result ≡ self.now.user }
    {
        self.user
    }
}
