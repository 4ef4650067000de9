//! What a client's message says: its kind, the addresses that it names, and what the client and
//! its relay say of the client.

ghost use Rattle.std.specs.Prelude.{◌≡◌, ◌==◌, length};
ghost use Rattle.std.specs.Int.{w32, from_be_bytes};
ghost use Rattle.off_base.specs.Parts.{bytes_of};
ghost use Rattle.off_asking.specs.Asking.{client, is_discover, is_request};
ghost use Rattle.off_asking.specs.Asking.{asks, gives_back, named_by, named_address};
ghost use Rattle.off_asking.specs.Asking.{named_server, at_address, form_by, form_of};
ghost use Rattle.off_asking.specs.Asking.{is_formless, is_selecting, is_renewing};
ghost use Rattle.off_asking.specs.Asking.{asked_by, claimed};
ghost use Rattle.off_asking.specs.Choice.{is_renewal};
ghost use Rattle.off_base.specs.declared.addresses.Ip4.{Ip4};
ghost use Rattle.off_asking.specs.declared.forms.Named.TheVariants.{Absent, At};
ghost use Rattle.off_asking.specs.Said.{IsKind};

use crate::forms::{Form, Named};
use crate::kinds::Kind;
use crate::parts::{Said, said_in};
use off_base::{Ip4, Joined, Mac};
use off_dhcp::Message;
use std::marker::Model;

// The kinds of messages (RFC 2132, section 9.6).
const DISCOVER: u8 = 1;

const REQUEST: u8 = 3;

const DECLINE: u8 = 4;

const RELEASE: u8 = 7;

// The options that name an address (RFC 2132, sections 9.1 and 9.7).
const REQUESTED_ADDRESS: u8 = 50;

const SERVER_IDENTIFIER: u8 = 54;

/// A client's message, and what its options say, each of which is read once.
///
/// Contracts see the message.
#[derive(Drop)]
pub struct Asked<'a> {
    pub(crate) message: &'a Message<'a>,
    pub(crate) kind: Kind,
    pub(crate) address: Named,
    pub(crate) server: Named,
    pub(crate) said: Said<'a>,
}

impl<'a> Model for Asked<'a> {
    ghost use Rattle.std.specs.Prelude.{◌≡◌};
    ghost use Rattle.off_dhcp.specs.Datagram.{Received};
    ghost use Rattle.off_asking.specs.Asking.{named_address, named_server};
    ghost use Rattle.off_asking.specs.Said.{IsKind, Says};

    ghost Value = { Received };

    ghost view = { λ a. a.message.now };

    ghost invariant = { λ a. IsKind a.message.now.kind a.kind
        × (a.address ≡ named_address a.message.now)
        × (a.server ≡ named_server a.message.now)
        × Says a.message.now a.said };
}

impl<'a> Asked<'a> {
    /// What a message says.
    pub fn of(message: &'a Message<'a>) -> Asked<'a>
        ensures { result ≡ message.now }
    {
        Asked {
            message,
            kind: kind_of(message.kind()),
            address: named_by(&message.option(REQUESTED_ADDRESS)),
            server: named_by(&message.option(SERVER_IDENTIFIER)),
            said: said_in(message),
        }
    }

    /// The message itself.
    pub fn message(&self) -> &'a Message<'a>
        ensures { result.now ≡ self.now }
    {
        self.message
    }

    /// Which of the kinds of messages it is.
    pub fn kind(&self) -> Kind
        ensures { IsKind self.now.kind result }
    {
        self.kind
    }

    /// The address that the client asks for, or declines.
    pub fn address(&self) -> Named
        ensures { result ≡ named_address self.now }
    {
        self.address
    }

    /// The server that is meant.
    pub fn server(&self) -> Named
        ensures { result ≡ named_server self.now }
    {
        self.server
    }

    /// The client's own address, where it has one.
    pub fn ciaddr(&self) -> Ip4
        ensures { result.0 ≡ self.now.ciaddr }
    {
        self.message.ciaddr()
    }

    /// The relay's address, or 0 where there is no relay.
    pub fn giaddr(&self) -> Ip4
        ensures { result.0 ≡ self.now.giaddr }
    {
        self.message.giaddr()
    }
}

/// The client's hardware address.
pub fn client(m: &Asked<'_>) -> Mac
    ensures { result ≡ client m.now }
{
    m.message().mac()
}

fn kind_of(code: u8) -> Kind
    ensures { IsKind code result }
{
    match code {
        DISCOVER => Kind::Discover,
        REQUEST => Kind::Request,
        DECLINE => Kind::Decline,
        RELEASE => Kind::Release,
        other => Kind::Other(other),
    }
}

/// Whether the message is a DISCOVER.
pub fn is_discover(m: &Asked<'_>) -> bool
    ensures { result ≡ is_discover m.now }
{
    match m.kind() {
        Kind::Discover => true,
        Kind::Request | Kind::Decline | Kind::Release | Kind::Other(_) => false,
    }
}

/// Whether the message is a REQUEST.
pub fn is_request(m: &Asked<'_>) -> bool
    ensures { result ≡ is_request m.now }
{
    match m.kind() {
        Kind::Request => true,
        Kind::Discover | Kind::Decline | Kind::Release | Kind::Other(_) => false,
    }
}

/// Whether the client asks for an address.
pub fn asks(m: &Asked<'_>) -> bool
    ensures { result ≡ asks m.now }
{
    match m.kind() {
        Kind::Discover | Kind::Request => true,
        Kind::Decline | Kind::Release | Kind::Other(_) => false,
    }
}

/// Whether the client gives an address up.
pub fn gives_back(m: &Asked<'_>) -> bool
    ensures { result ≡ gives_back m.now }
{
    match m.kind() {
        Kind::Decline | Kind::Release => true,
        Kind::Discover | Kind::Request | Kind::Other(_) => false,
    }
}

// The address of an option's value.
fn named_by(value: &Joined<'_>) -> Named
    ensures { result ≡ named_by value.now }
{
    if !value.present() {
        return Named::Absent;
    }
    if value.len() != 4 {
        return Named::Malformed;
    }
    Named::At(Ip4(four_bytes(value)))
}

// The number in a value of four bytes.
fn four_bytes(value: &Joined<'_>) -> u32
    requires { length (bytes_of value.now) ≡ 4 }
    ensures { result ≡ from_be_bytes w32 (bytes_of value.now) }
{
    let mut bytes = value.bytes();
    u32::from_be_bytes([
        bytes.byte_at(0),
        bytes.byte_at(1),
        bytes.byte_at(2),
        bytes.byte_at(3),
    ])
}

/// The address that is named, where one is.
pub fn at_address(named: Named) -> Option<Ip4>
    ensures { result ≡ at_address named }
{
    match named {
        Named::At(address) => Some(address),
        Named::Absent | Named::Malformed => None,
    }
}

/// For which address a REQUEST asks, and how.
pub fn form_of(m: &Asked<'_>) -> Form
    ensures { result ≡ form_of m.now }
{
    form_by(m.address(), m.server(), m.ciaddr())
}

fn form_by(address: Named, server: Named, ciaddr: Ip4) -> Form
    ensures { result ≡ form_by address server (ciaddr.0 == 0) ciaddr }
{
    match address {
        Named::At(asked) => form_at(asked, server, ciaddr.0 == 0),
        Named::Absent => form_without(server, ciaddr),
        Named::Malformed => Form::NoForm,
    }
}

// Where option 50 has an address.
fn form_at(asked: Ip4, server: Named, has_none: bool) -> Form
    ensures { (ciaddr : Ip4) → result ≡ form_by (At asked) server has_none ciaddr }
{
    if !has_none {
        return Form::NoForm;
    }
    match server {
        Named::At(_) => Form::Selecting(asked),
        Named::Absent => Form::InitReboot(asked),
        Named::Malformed => Form::NoForm,
    }
}

// Where there is no option 50.
fn form_without(server: Named, ciaddr: Ip4) -> Form
    ensures { result ≡ form_by Absent server (ciaddr.0 == 0) ciaddr }
{
    if ciaddr.0 == 0 {
        return Form::NoForm;
    }
    match server {
        Named::Absent => Form::Renewing(ciaddr),
        Named::At(_) | Named::Malformed => Form::NoForm,
    }
}

pub(crate) fn is_formless(form: Form) -> bool
    ensures { result ≡ is_formless form }
{
    matches!(form, Form::NoForm)
}

/// Whether a REQUEST takes an offer that was made.
pub fn is_selecting(form: Form) -> bool
    ensures { result ≡ is_selecting form }
{
    matches!(form, Form::Selecting(_))
}

/// Whether a REQUEST renews the address that the client has.
pub fn is_renewal(m: &Asked<'_>) -> bool
    ensures { result ≡ is_renewal m.now }
{
    is_request(m) && is_renewing(form_of(m))
}

fn is_renewing(form: Form) -> bool
    ensures { result ≡ is_renewing form }
{
    matches!(form, Form::Renewing(_))
}

fn asked_by(form: Form) -> Option<Ip4>
    ensures { result ≡ asked_by form }
{
    match form {
        Form::Selecting(address) => Some(address),
        Form::InitReboot(address) => Some(address),
        Form::Renewing(address) => Some(address),
        Form::NoForm => None,
    }
}

/// The address for which a REQUEST asks, or that a DECLINE or a RELEASE gives back.
pub fn claimed(m: &Asked<'_>) -> Option<Ip4>
    ensures { result ≡ claimed m.now }
{
    match m.kind() {
        Kind::Request => asked_by(form_of(m)),
        Kind::Decline => at_address(m.address()),
        Kind::Discover | Kind::Release | Kind::Other(_) => Some(m.ciaddr()),
    }
}
